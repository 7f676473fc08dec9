//! What the last build kept.
ghost use Rattle.std.specs.Prelude.{◌≡◌};

use crate::checking::Told;
use pie_base::{OutOfMemory, Path, PathError, Status};
use pie_files::{Files, FilesError};
use pie_lookup::{graph, graph_json, sizes, tasks, who};
use pie_store::{StoreFault, StoreImage, decode_store};
use std::alloc::Global;

/// What is asked of the store.
#[derive(Clone, Copy)]
pub(crate) enum Lookup<'a> {
    Tasks(&'a str),
    Who(&'a str),
    Graph(bool),
    Store,
}

/// What the store of a directory tells, or why there is nothing to tell. The status is that of a refusal where there is no store that can be read.
pub(crate) fn looked_up<F: Files>(
    alloc: Global,
    files: &mut F,
    lookup: Lookup<'_>,
) -> Result<Told, FilesError>
    ensures same { F.holds files.new ≡ F.holds files.old }
{
    let place = Path::known(alloc, ".pie/store")?;
    match files.read(&place)? {
        Some(found) => Ok(of_store(alloc, found.bytes.as_slice(), lookup)?),
        None => Ok(refused(
            alloc,
            "there is no .pie/store here: nothing was built yet\n",
        )?),
    }
}

fn of_store(alloc: Global, bytes: &[u8], lookup: Lookup<'_>) -> Result<Told, OutOfMemory> {
    match decode_store(alloc, bytes) {
        Ok(image) => of_image(alloc, bytes.len(), &image, lookup),
        Err(StoreFault::OutOfMemory) => Err(OutOfMemory),
        Err(_) => refused(
            alloc,
            ".pie/store can't be read: the next build starts afresh\n",
        ),
    }
}

fn of_image(
    alloc: Global,
    bytes: usize,
    image: &StoreImage,
    lookup: Lookup<'_>,
) -> Result<Told, OutOfMemory> {
    match lookup {
        Lookup::Tasks(prefix) => Ok(told(tasks(alloc, image.rows.as_slice(), prefix)?)),
        Lookup::Who(path) => of_path(alloc, image, path),
        Lookup::Graph(false) => Ok(told(graph(alloc, image.rows.as_slice())?)),
        Lookup::Graph(true) => Ok(told(graph_json(alloc, image.rows.as_slice())?)),
        Lookup::Store => Ok(told(sizes(alloc, bytes, image)?)),
    }
}

fn of_path(alloc: Global, image: &StoreImage, path: &str) -> Result<Told, OutOfMemory> {
    match Path::read(alloc, path) {
        Ok(path) => Ok(told(who(alloc, image.rows.as_slice(), &path)?)),
        Err(PathError::OutOfMemory) => Err(OutOfMemory),
        Err(_) => refused(
            alloc,
            "that is no path of a project: it is relative, without `.` and `..`, and has at most 255 bytes\n",
        ),
    }
}

fn told(text: String) -> Told {
    Told {
        text,
        status: Status::Ok,
    }
}

fn refused(alloc: Global, text: &str) -> Result<Told, OutOfMemory> {
    let mut said = String::new(alloc);
    said.push_str(text)?;
    Ok(Told {
        text: said,
        status: Status::Refused,
    })
}
