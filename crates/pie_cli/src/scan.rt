//! What scanning finds, and what is told of it.
ghost use Rattle.std.specs.Prelude.{◌≡◌, ◌++◌, true, IfOk, OnOk, string_bytes};
ghost use Rattle.std.specs.List.{flat_map};
ghost use Rattle.pie_files.specs.Reading.{ReadsOnly};
ghost use Rattle.pie_cli.specs.Run.{is_answer};
ghost use Rattle.pie_cli.specs.Scan.{ScanSays, listing_text, path_line, reason_name, unlisted_line};

use crate::told::CommandResult;
use pie_base::{OutOfMemory, Path, Status};
use pie_files::{Files, FilesError};
use pie_listing::{Listing, Reason, list};
use std::alloc::Global;

/// Scans below these tops, and tells the paths that differ from those of the manifest, or why there is no list. It changes no file.
#[tactic(auto, using(pie_files::proofs::Reading::reads))]
pub(crate) fn scan<F: Files>(
    alloc: Global,
    files: &mut F,
    tops: &[Path],
) -> Result<CommandResult, FilesError>
    ensures says { IfOk result (λ told. ScanSays tops.now (F.holds files.old) (F.holds files.new) (string_bytes told.text) told.status) }
    ensures answer { IfOk result (λ told. is_answer told.status ≡ true) }
    ensures reads { ReadsOnly F.holds F.moment F.left_since F.images F.faults files.old files.new result }
{
    let listing = list(alloc, files, tops)?;
    let told = of_listing(alloc, &listing)?;
    Ok(told)
}

// What is told of a listing.
fn of_listing(alloc: Global, listing: &Listing) -> Result<CommandResult, OutOfMemory>
    ensures text { IfOk result (λ told. string_bytes told.text ≡ listing_text listing.now) }
    ensures status { IfOk result (λ told. told.status ≡ Status.Ok) }
{
    let text = text_of(alloc, listing)?;
    Ok(CommandResult {
        text,
        status: Status::Ok,
    })
}

fn text_of(alloc: Global, listing: &Listing) -> Result<String, OutOfMemory>
    ensures { IfOk result (λ text. string_bytes text ≡ listing_text listing.now) }
{
    match listing {
        Listing::Listed(paths) => lines(alloc, paths.as_slice()),
        Listing::Unlisted(reason) => unlisted(alloc, *reason),
    }
}

// Paths, each in a line.
fn lines(alloc: Global, paths: &[Path]) -> Result<String, OutOfMemory>
    ensures { IfOk result (λ text. string_bytes text ≡ flat_map path_line paths.now) }
{
    let mut text = String::new(alloc);
    for path in paths {
        put_line(&mut text, path)?;
    }
    Ok(text)
}

fn put_line(text: &mut String, path: &Path) -> Result<(), OutOfMemory>
    ensures { OnOk result (string_bytes text.new ≡ string_bytes text.old ++ path_line path.now) }
{
    text.push_str(path.as_str())?;
    text.push_str("\n")?;
    Ok(())
}

/// The line of why there is no list.
pub(crate) fn unlisted(alloc: Global, reason: Reason) -> Result<String, OutOfMemory>
    ensures { IfOk result (λ text. string_bytes text ≡ unlisted_line reason) }
{
    let mut text = String::from_str(alloc, "unlisted ")?;
    text.push_str(name_of(reason))?;
    text.push_str("\n")?;
    Ok(text)
}

fn name_of(reason: Reason) -> &'static str
    ensures { result.now ≡ reason_name reason }
{
    match reason {
        Reason::NoManifest => "NoManifest",
        Reason::BadManifest(_) => "BadManifest",
        Reason::OtherStore => "OtherStore",
        Reason::OtherTops => "OtherTops",
    }
}
