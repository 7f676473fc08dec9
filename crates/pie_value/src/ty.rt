//! The types of the language.
ghost use Rattle.std.specs.Prelude.{◌≡◌, IfOk};
ghost use Rattle.pie_value.specs.TypeTrees.{ty_tree, ty_trees};

use pie_base::OutOfMemory;
use std::alloc::Global;
use std::marker::Model;
use std::rc::Rc;

/// A type. Contracts see it by its tree. Rule: docs/LANGUAGE.md, "Types".
#[cycle(ty)]
#[derive(Drop)]
pub enum Ty {
    Unit,
    Bool,
    Int,
    Text,
    Path,
    List(Part),
    Tuple(Parts),
    Nullable(Part),
    Bytes,
}

/// The type of a list's items, or of what can be null. Contracts see its tree. A copy shares it.
#[cycle(ty)]
#[derive(Drop)]
pub struct Part {
    ty: Rc<Ty>,
}

/// The types of a tuple's items. Contracts see the list of their trees. A copy shares them.
#[cycle(ty)]
#[derive(Drop)]
pub struct Parts {
    types: Rc<Vec<Ty>>,
}

impl Model for Part {
    ghost use Rattle.pie_value.specs.Types.{TyTree, part_weight};
    ghost use Rattle.pie_value.specs.inner.TypeCodes.{coded_ty};

    ghost Value = { TyTree };

    ghost coded = { coded_ty };

    ghost use Rattle.pie_value.specs.TypeTrees.{ty_tree};

    ghost view = { λ a. ty_tree a.ty.value };

    ghost size = { part_weight };

    ghost use Rattle.pie_value.specs.inner.TypeFalls.{part_le_weight};

    ghost size_decreases = { λ a h. part_le_weight a };
}

impl Model for Parts {
    ghost use Rattle.std.specs.Prelude.{List};
    ghost use Rattle.pie_value.specs.Types.{TyTree, parts_weight};
    ghost use Rattle.pie_value.specs.inner.TypeCodes.{coded_tys};

    ghost Value = { List TyTree };

    ghost coded = { coded_tys };

    ghost use Rattle.pie_value.specs.TypeTrees.{ty_trees};

    ghost view = { λ a. ty_trees a.types.value.items };

    ghost size = { parts_weight };

    ghost use Rattle.pie_value.specs.inner.TypeFalls.{parts_le_weight};

    ghost size_decreases = { λ a h. parts_le_weight a };
}

impl Ty {
    /// An equal type, which shares its parts.
    pub fn copy(&self) -> Result<Ty, OutOfMemory>
        ensures { IfOk result (λ copy. copy ≡ self.now) }
    {
        match self {
            Ty::Unit => Ok(Ty::Unit),
            Ty::Bool => Ok(Ty::Bool),
            Ty::Int => Ok(Ty::Int),
            Ty::Text => Ok(Ty::Text),
            Ty::Path => Ok(Ty::Path),
            Ty::List(part) => Ok(Ty::List(part.copy()?)),
            Ty::Tuple(parts) => Ok(Ty::Tuple(parts.copy()?)),
            Ty::Nullable(part) => Ok(Ty::Nullable(part.copy()?)),
            Ty::Bytes => Ok(Ty::Bytes),
        }
    }
}

impl Part {
    pub fn new(alloc: Global, ty: Ty) -> Result<Part, OutOfMemory>
        ensures { IfOk result (λ made. made ≡ ty_tree ty) }
    {
        let ty = Rc::new(alloc, ty)?;
        Ok(Part { ty })
    }

    /// The type itself.
    pub fn get(&self) -> &Ty
        ensures { ty_tree result.now ≡ self.now }
    {
        &self.ty
    }

    /// An equal part, which shares the type.
    pub fn copy(&self) -> Result<Part, OutOfMemory>
        ensures { IfOk result (λ copy. copy ≡ self.now) }
    {
        let ty = self.ty.clone()?;
        Ok(Part { ty })
    }
}

impl Parts {
    pub fn new(alloc: Global, types: Vec<Ty>) -> Result<Parts, OutOfMemory>
        ensures { IfOk result (λ made. made ≡ ty_trees types.items) }
    {
        let types = Rc::new(alloc, types)?;
        Ok(Parts { types })
    }

    pub fn as_slice(&self) -> &[Ty]
        ensures { ty_trees result.now ≡ self.now }
    {
        self.types.as_slice()
    }

    /// Equal parts, which share the types.
    pub fn copy(&self) -> Result<Parts, OutOfMemory>
        ensures { IfOk result (λ copy. copy ≡ self.now) }
    {
        let types = self.types.clone()?;
        Ok(Parts { types })
    }
}
