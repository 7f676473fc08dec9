//! What is noted and told of looks and listings.
ghost use Rattle.pie_builder_laws.specs.Looks.{PresencesAreTheModels, ReadingsAreTheModels, DigestsAreTheModels, HashesAreOfBytes, ListingsAreTheModels};
ghost use Rattle.pie_builder_laws.specs.Looks.{ListingsHaveTheLimit};

/// Looks are noted and answered as in the model.
pub fn looks_are_the_models()
    ensures presences { PresencesAreTheModels }
    ensures readings { ReadingsAreTheModels }
    ensures digests { DigestsAreTheModels }
{}

/// Listings are noted and answered as in the model, with the same limit.
pub fn listings_are_the_models()
    ensures hashes { HashesAreOfBytes }
    ensures listings { ListingsAreTheModels }
    ensures limit { ListingsHaveTheLimit }
{}
