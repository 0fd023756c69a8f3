//! The controller of a place to which a message leads.

ghost use Rattle.std.specs.Prelude.{◌≡◌, None, Some, string_bytes, IfOk, IfSome, IfNone};
ghost use Rattle.shop_folder.specs.Routes as routes;
ghost use Rattle.server_steps.specs.Routes.{IsWorkerFile, LeadsByName, LeadsInFolder, LeadsNowhere};
ghost use Rattle.server_steps.specs.Routes.{LeadsNowhereIn, LeadsTo, LeadsToNamed, owner_for};

use crate::engine::Engine;
use crate::etcd_folder::lies_at;
use controller::Message;
use shop_folder::{Lies, Owner, Place, file_for, in_folder, name_of};
use std::alloc::{AllocError, Global};
use std::net::Net;
use std::rt::Files;
use std::time::Clock;
use ticket_items::{Duplicate, Id};

/// The file of a controller, and which one it is for.
#[derive(Drop)]
pub struct Route {
    pub path: String,
    pub to: Owner,
}

/// The controller of a folder to which a message leads, by what lies there.
fn route_by(
    alloc: Global,
    folder: &str,
    lies: Lies,
    message: &Message,
) -> Result<Option<Route>, AllocError>
    ensures some { IfOk result (λ route. IfSome route (λ r.
        routes.file_for folder.now lies message.now.receiver message.now.sender
        ≡ Some (string_bytes r.path))) }
    ensures owner { IfOk result (λ route. IfSome route (λ r. r.to ≡ owner_for lies message.now)) }
    ensures none { IfOk result (λ route. IfNone route
        (routes.file_for folder.now lies message.now.receiver message.now.sender ≡ None)) }
{
    let receiver = message.receiver.as_str();
    let sender = message.sender.as_str();
    let Some(path) = file_for(alloc, folder, lies, receiver, sender)? else {
        return Ok(None);
    };
    let name = message.receiver.copy(alloc)?;
    let to = match lies {
        Lies::Folder => Owner::WorkerOf(name, message.sender.copy(alloc)?),
        Lies::File | Lies::Nothing => Owner::Named(name),
    };
    Ok(Some(Route { path, to }))
}

/// The controller of a place to which a message leads: the one that is served, or the one of the
/// folder to whose file its receiver and its sender lead.
pub fn route_of<R: Files + Net + Clock>(
    rt: &R,
    alloc: Global,
    place: &Place<'_>,
    message: &Message,
    engine: &mut Engine,
) -> Result<Option<Route>, AllocError>
    // Proved: A message leads to the file that is served; or in the folder to the one to which its
    // receiver and its sender lead, by what lies there.
    // By `some`, `none`.
    ensures some { IfOk result (λ route. IfSome route (LeadsTo place.now message.now)) }
    ensures none { IfOk result (λ route. IfNone route (LeadsNowhere place.now message.now)) }
{
    match place {
        Place::File(file) => Ok(Some(Route {
            path: String::from_str(alloc, file)?,
            to: Owner::Any,
        })),
        Place::Folder(folder) => {
            let under = in_folder(alloc, folder, message.receiver.as_str())?;
            let lies = lies_at(rt, alloc, under.as_str(), engine)?;
            route_by(alloc, folder, lies, message)
        }
    }
}

/// The file of a controller of this name in a folder.
fn named_file(alloc: Global, folder: &str, name: &str) -> Result<Option<Route>, AllocError>
    ensures some { IfOk result (λ route. IfSome route (LeadsToNamed folder.now name.now)) }
    ensures none { IfOk result (λ route. IfNone route
        (routes.file_for folder.now Lies.File name.now name.now ≡ None)) }
{
    let file = file_for(alloc, folder, Lies::File, name, name)?;
    match file {
        Some(path) => {
            let to = Owner::Named(Id::from_valid(alloc, name)?);
            Ok(Some(Route { path, to }))
        }
        None => Ok(None),
    }
}

/// The file of a worker for this master in the folder of its name.
fn named_worker(
    alloc: Global,
    folder: &str,
    worker: &str,
    master: &str,
) -> Result<Option<Route>, AllocError>
    ensures some { IfOk result (λ route. IfSome route
        (IsWorkerFile folder.now worker.now master.now)) }
    ensures none { IfOk result (λ route. IfNone route
        (routes.file_for folder.now Lies.Folder worker.now master.now ≡ None)) }
{
    let file = file_for(alloc, folder, Lies::Folder, worker, master)?;
    match file {
        Some(path) => {
            let name = Id::from_valid(alloc, worker)?;
            let to = Owner::WorkerOf(name, Id::from_valid(alloc, master)?);
            Ok(Some(Route { path, to }))
        }
        None => Ok(None),
    }
}

/// The file of a name as that of a controller in a folder is told: `job-17`, or `press/job-17`.
pub(crate) fn named_in(alloc: Global, folder: &str, name: &str) -> Result<Option<Route>, AllocError>
    // Proved: In a folder a name leads to the file of that name, or of a worker's name and its
    // master's, and nowhere just where it names neither.
    // By `some`, `none`.
    ensures some { IfOk result (λ route. IfSome route (LeadsInFolder folder.now name.now)) }
    ensures none { IfOk result (λ route. IfNone route (LeadsNowhereIn folder.now name.now)) }
{
    match name.split_once('/') {
        Some((worker, master)) => named_worker(alloc, folder, worker, master),
        None => named_file(alloc, folder, name),
    }
}

/// A route, if its file is there.
fn if_there<R: Files + Net + Clock>(
    rt: &R,
    alloc: Global,
    route: Route,
    engine: &mut Engine,
) -> Result<Option<Route>, AllocError>
    ensures { IfOk result (λ found. IfSome found (λ r. r ≡ route)) }
{
    match lies_at(rt, alloc, route.path.as_str(), engine)? {
        Lies::File => Ok(Some(route)),
        Lies::Folder | Lies::Nothing => Ok(None),
    }
}

/// The controller of this name in what is served, as the log tells names, if its file is there.
pub fn named_route<R: Files + Net + Clock>(
    rt: &R,
    alloc: Global,
    place: &Place<'_>,
    name: &str,
    engine: &mut Engine,
) -> Result<Option<Route>, AllocError>
    // Proved: The name of a controller leads to the file that is served; or in the folder to the
    // file of that name, or of a worker's name and its master's.
    ensures { IfOk result (λ route. IfSome route (LeadsByName place.now name.now)) }
{
    match place {
        Place::File(file) => {
            if name_of(place, file) != name {
                return Ok(None);
            }
            Ok(Some(Route {
                path: String::from_str(alloc, file)?,
                to: Owner::Any,
            }))
        }
        Place::Folder(folder) => match named_in(alloc, folder, name)? {
            Some(route) => if_there(rt, alloc, route, engine),
            None => Ok(None),
        },
    }
}
