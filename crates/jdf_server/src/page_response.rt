//! What a reader of the page is answered with.

ghost use Rattle.std.specs.Prelude.{◌≡◌};
ghost use Rattle.jdf_server.specs.Beginning.{ServesOn};

use crate::health::Health;
use crate::lines::keep_in;
use crate::server::Server;
use controller_form::push_shown;
use etcd_place::is_etcd;
use http::StatusCode;
use http_message::{Method, page_bytes};
use job_list::Work;
use job_picture::{push_picture, push_worker_picture};
use journal::seconds;
use keepers::Locks;
use server_steps::{ControllerView, Engine, Look, answers, lists, look_at_path};
use shop_folder::{Place, in_folder, name_of};
use shop_page::{
    Delivery, Gauges, OfController, OpenWork, Shop, controller_page, list_json, metrics_text,
    shop_page, worker_json,
};
use std::alloc::{Alloc, AllocError, Global};
use std::fs;
use std::io::Write;
use std::net::Net;
use std::rt::Files;
use std::time::Clock;
use stored_state::{AnyController, SavedState};

const HTML: &[u8] = b"text/html; charset=utf-8";

const JSON: &[u8] = b"application/json";

const PLAIN: &[u8] = b"text/plain; charset=utf-8";

const METRICS: &[u8] = b"text/plain; version=0.0.4; charset=utf-8";

/// What is told where no controller has a name.
const NO_CONTROLLER: &str = "no controller of this name\n";

/// What is told where a controller can't be looked at, and wasn't looked at before.
const LOCKED: &str = "somebody else has it locked: load it again\n";

/// The same where the engine that keeps it doesn't tell.
const UNANSWERED: &str = "etcd doesn't answer: load it again\n";

/// For how many milliseconds a finding about the folder stands.
const HEALTH_TIME: u64 = 1_000;

/// The name of the file that is made and removed again to see whether the folder can be written. It
/// has dots, so that no controller has it.
const TRIAL: &str = ".writable.new";

/// What is written there: where no room is left a file can be made, and nothing written.
const TRIED: &[u8] = b"written\n";

/// What a page is made of.
#[derive(Drop)]
struct PageContents {
    status: StatusCode,
    kind: &'static [u8],
    body: Vec<u8>,
}

/// One with a text.
fn with_text(status: StatusCode, kind: &'static [u8], text: String) -> PageContents {
    PageContents {
        status,
        kind,
        body: text.into_bytes(),
    }
}

/// One with a line that tells why there is no more.
fn told_page(alloc: Global, status: StatusCode, line: &str) -> Result<PageContents, AllocError> {
    Ok(with_text(status, PLAIN, String::from_str(alloc, line)?))
}

/// Whether a file can be made and written beside the controllers.
fn can_write<R: Files>(rt: &R, alloc: Global, place: &Place<'_>) -> Result<bool, AllocError> {
    let path = match place {
        Place::Folder(folder) => in_folder(alloc, folder, TRIAL)?,
        Place::File(file) => match file.rsplit_once('/') {
            Some((folder, _)) => in_folder(alloc, folder, TRIAL)?,
            None => String::from_str(alloc, TRIAL)?,
        },
    };
    match fs::create(rt, path.as_str()) {
        Ok(mut file) => {
            let is_written = file.write_all(TRIED).is_ok();
            drop(file);
            Ok(fs::remove_file(rt, path.as_str()).is_ok() && is_written)
        }
        Err(_) => Ok(false),
    }
}

/// Whether controllers can be kept where they are: etcd answers, or a file can be made and written
/// beside them.
fn can_keep<R: Files + Net + Clock>(
    rt: &R,
    alloc: Global,
    place: &Place<'_>,
    engine: &mut Engine,
) -> Result<bool, AllocError> {
    match place {
        Place::File(path) if is_etcd(path) => Ok(answers(rt, alloc, path, engine)),
        Place::Folder(path) if is_etcd(path) => Ok(lists(rt, alloc, path, engine)),
        _ => can_write(rt, alloc, place),
    }
}

/// What is told where they can't be.
fn no_room(place: &Place<'_>) -> &'static str {
    match place {
        Place::File(path) | Place::Folder(path) if is_etcd(path) => "etcd doesn't answer\n",
        _ => "the folder of the controllers can't be written\n",
    }
}

/// The picture of a controller at a time in seconds since 1970.
fn picture_of(alloc: Global, controller: &AnyController, now: u64) -> Result<Vec<u8>, AllocError> {
    let mut picture = Vec::new(alloc);
    match controller {
        AnyController::Master(master) => push_picture(alloc, &mut picture, master, now)?,
        AnyController::Worker(worker) => push_worker_picture(alloc, &mut picture, worker, now)?,
    }
    Ok(picture)
}

/// The page of a controller, as its file is named, at a time in seconds since 1970.
fn controller_page_of(
    alloc: Global,
    name: &str,
    controller: &AnyController,
    now: u64,
) -> Result<PageContents, AllocError> {
    let picture = picture_of(alloc, controller, now)?;
    match str::from_utf8(picture.as_slice()) {
        Ok(picture) => Ok(with_text(StatusCode::OK, HTML, controller_page(alloc, name, picture)?)),
        Err(_) => Err(AllocError),
    }
}

/// What a controller shows, as JSON.
fn shown_json(alloc: Global, controller: &AnyController) -> Result<PageContents, AllocError> {
    let body = match controller {
        AnyController::Master(master) => {
            let mut text = Vec::new(alloc);
            match push_shown(alloc, &mut text, master) {
                Ok(()) => text,
                Err(_) => return Err(AllocError),
            }
        }
        AnyController::Worker(worker) => worker_json(alloc, worker)?,
    };
    Ok(PageContents {
        status: StatusCode::OK,
        kind: JSON,
        body,
    })
}

/// A controller as it is asked for: its picture, or what it shows.
fn picture_or_json(
    alloc: Global,
    name: &str,
    is_json: bool,
    controller: &AnyController,
    now: u64,
) -> Result<PageContents, AllocError> {
    if is_json {
        shown_json(alloc, controller)
    } else {
        controller_page_of(alloc, name, controller, now)
    }
}

/// A controller as it is asked for, by what was found in its file, and what was saved of it last.
fn look_response(
    alloc: Global,
    name: &str,
    is_json: bool,
    look: Look,
    last: &Option<SavedState>,
    now: u64,
) -> Result<PageContents, AllocError> {
    match (look, last) {
        (Look::Found(found), _) => {
            picture_or_json(alloc, name, is_json, found.controller(), now)
        }
        (Look::Same | Look::LockedOut | Look::Unanswered, Some(saved)) => {
            picture_or_json(alloc, name, is_json, saved.controller(), now)
        }
        (Look::LockedOut, None) => told_page(alloc, StatusCode::SERVICE_UNAVAILABLE, LOCKED),
        (Look::Unanswered, None) => {
            told_page(alloc, StatusCode::SERVICE_UNAVAILABLE, UNANSWERED)
        }
        _ => told_page(alloc, StatusCode::NOT_FOUND, NO_CONTROLLER),
    }
}

impl<'a, R: Locks + Net + Clock + Alloc + Clone + Drop, F: Write + Drop> Server<'a, R, F> {
    /// How the message of a controller's open work fares.
    fn delivery_of(&self, number: usize, spawn: ticket_items::SpawnId) -> Delivery {
        let Some(post) = &self.post else {
            return Delivery::Unknown;
        };
        match post.deliveries.progress(number, spawn) {
            Some(deliveries::Progress::Waiting) => Delivery::Waits,
            Some(deliveries::Progress::Taken) => Delivery::Taken,
            Some(deliveries::Progress::Refused(number)) => Delivery::Refused(number),
            None => Delivery::Unknown,
        }
    }

    /// Open work of the controller of a number, in the file of this path.
    fn open_work<'t>(
        &'t self,
        number: usize,
        path: &'t str,
        shown: &'t ControllerView,
        work: &'t Work,
    ) -> OpenWork<'t> {
        OpenWork {
            controller: name_of(&self.place, path),
            name: &shown.name,
            work,
            delivery: self.delivery_of(number, work.spawn_id),
        }
    }

    /// What is open of all controllers whose files are there, what went out first before the
    /// others.
    fn open_works(&self) -> Result<Vec<OpenWork<'_>>, AllocError> {
        let mut works = Vec::new(self.alloc);
        for (number, (path, seat)) in self.watched.controllers.iter().enumerate() {
            if seat.is_there
                && let Some(shown) = &seat.shown
            {
                for work in shown.open.as_slice() {
                    works.push(self.open_work(number, path.as_str(), shown, work))?;
                }
            }
        }
        works.sort_by_key(|one| one.work.at)?;
        Ok(works)
    }

    /// What stands of the controller of a number, in the file of this path.
    fn gauges_of<'t>(
        &'t self,
        number: usize,
        path: &'t str,
        shown: &'t ControllerView,
        now: u64,
    ) -> OfController<'t> {
        let mut gauges = OfController {
            controller: name_of(&self.place, path),
            out: shown.open.len(),
            waiting: 0,
            refused: 0,
        };
        for work in shown.open.as_slice() {
            let one = self.open_work(number, path, shown, work);
            if one.waits_long(now) {
                gauges.waiting = gauges.waiting.saturating_add(1);
            }
            if one.refusal().is_some() {
                gauges.refused = gauges.refused.saturating_add(1);
            }
        }
        gauges
    }

    /// What stands of each controller whose file is there.
    fn all_gauges(&self, now: u64) -> Result<Vec<OfController<'_>>, AllocError> {
        let mut all = Vec::new(self.alloc);
        for (number, (path, seat)) in self.watched.controllers.iter().enumerate() {
            if seat.is_there
                && let Some(shown) = &seat.shown
            {
                all.push(self.gauges_of(number, path.as_str(), shown, now))?;
            }
        }
        Ok(all)
    }

    /// The shop at a time in seconds since 1970.
    fn shop_at(&self, now: u64) -> Shop<'_> {
        let mut shop = Shop {
            path: self.place.path(),
            now,
            controllers: 0,
            unread: 0,
            closed: 0,
        };
        for (_, seat) in self.watched.controllers.iter() {
            if seat.is_there {
                match &seat.shown {
                    Some(shown) => {
                        shop.controllers = shop.controllers.saturating_add(1);
                        shop.closed = shop.closed.saturating_add(shown.closed);
                    }
                    None => shop.unread = shop.unread.saturating_add(1),
                }
            }
        }
        shop
    }

    fn shop_response(&self, now: u64) -> Result<PageContents, AllocError> {
        let works = self.open_works()?;
        let page = shop_page(self.alloc, &self.shop_at(now), works.as_slice())?;
        Ok(with_text(StatusCode::OK, HTML, page))
    }

    fn list_response(&self, now: u64) -> Result<PageContents, AllocError> {
        let works = self.open_works()?;
        Ok(PageContents {
            status: StatusCode::OK,
            kind: JSON,
            body: list_json(self.alloc, &self.shop_at(now), works.as_slice())?,
        })
    }

    fn metrics_response(&self, now: u64) -> Result<PageContents, AllocError> {
        let works = self.open_works()?;
        let shop = self.shop_at(now);
        let gauges = Gauges {
            clients: self.clients.all.len(),
            controllers: shop.controllers,
            unread: shop.unread,
            out: works.len(),
            waiting: works.iter().filter(|one| one.waits_long(now)).count(),
            refused: works.iter().filter(|one| one.refusal().is_some()).count(),
        };
        let each = self.all_gauges(now)?;
        let text = metrics_text(self.alloc, &self.clients.counts, &gauges, each.as_slice())?;
        Ok(with_text(StatusCode::OK, METRICS, text))
    }

    /// Whether the folder can be written, as it was found within the last second.
    fn is_written(&mut self) -> Result<bool, AllocError>
        ensures serves { ServesOn self.old self.new }
        ensures post { self.new.post ≡ self.old.post }
    {
        if self.health.until <= self.clients.now {
            self.health = Health {
                until: self.clients.now.saturating_add(HEALTH_TIME),
                is_written: can_keep(self.rt, self.alloc, &self.place, &mut self.engine)?,
            };
        }
        Ok(self.health.is_written)
    }

    /// Whether the shop can go on: its folder can be written, and where it has files a controller
    /// was read of one.
    fn health_response(&mut self) -> Result<PageContents, AllocError>
        ensures serves { ServesOn self.old self.new }
        ensures post { self.new.post ≡ self.old.post }
    {
        if !self.is_written()? {
            let line = no_room(&self.place);
            return told_page(self.alloc, StatusCode::SERVICE_UNAVAILABLE, line);
        }
        let shop = self.shop_at(0);
        if shop.controllers == 0 && shop.unread > 0 {
            let line = "no file holds a controller of its name\n";
            return told_page(self.alloc, StatusCode::SERVICE_UNAVAILABLE, line);
        }
        told_page(self.alloc, StatusCode::OK, "ok\n")
    }

    /// The number of the controller whose file is named so in what is served.
    fn number_of(&self, name: &str) -> Result<Option<usize>, AllocError> {
        match self.place {
            Place::Folder(folder) => {
                let path = in_folder(self.alloc, folder, name)?;
                Ok(self.watched.controllers.get_index_of(path.as_str()))
            }
            Place::File(file) if name_of(&self.place, file) == name => {
                Ok(self.watched.controllers.get_index_of(file))
            }
            Place::File(_) => Ok(None),
        }
    }

    /// The controller of a name, as its file holds it now.
    fn controller_response(
        &mut self,
        name: &str,
        is_json: bool,
        now: u64,
    ) -> Result<PageContents, AllocError>
        ensures serves { ServesOn self.old self.new }
        ensures post { self.new.post ≡ self.old.post }
    {
        let Some(number) = self.number_of(name)? else {
            return told_page(self.alloc, StatusCode::NOT_FOUND, NO_CONTROLLER);
        };
        let Some((path, seat)) = self.watched.controllers.get_index(number) else {
            return told_page(self.alloc, StatusCode::NOT_FOUND, NO_CONTROLLER);
        };
        let last = self.saved.take(path.as_str());
        let to = seat.owner.as_addressee();
        let (rt, engine) = (self.rt, &mut self.engine);
        let look = look_at_path(rt, self.alloc, path.as_str(), to, &last, engine);
        let made = look_response(self.alloc, name, is_json, look, &last, now);
        keep_in(self.alloc, &mut self.saved, path.as_str(), last)?;
        made
    }

    /// What a path names.
    fn made_of(&mut self, path: &str, now: u64) -> Result<PageContents, AllocError>
        ensures serves { ServesOn self.old self.new }
        ensures post { self.new.post ≡ self.old.post }
    {
        match path {
            "/" => self.shop_response(now),
            "/list.json" => self.list_response(now),
            "/metrics" => self.metrics_response(now),
            "/health" => self.health_response(),
            _ => {
                let name = path.strip_prefix("/").unwrap_or(path);
                match name.strip_suffix(".json") {
                    Some(name) => self.controller_response(name, true, now),
                    None => self.controller_response(name, false, now),
                }
            }
        }
    }

    /// The response to one who looks over the local socket: `/list`, or what a controller shows.
    pub(crate) fn looked_response(&mut self, path: &[u8]) -> Result<Vec<u8>, AllocError>
        ensures serves { ServesOn self.old self.new }
        ensures post { self.new.post ≡ self.old.post }
    {
        let now = seconds(self.rt).unwrap_or(0);
        let PageContents { status, kind, body } = match str::from_utf8(path) {
            Ok("/list") => self.list_response(now)?,
            Ok(path) => self.controller_response(
                path.strip_prefix("/").unwrap_or(path),
                true,
                now,
            )?,
            Err(_) => told_page(self.alloc, StatusCode::NOT_FOUND, NO_CONTROLLER)?,
        };
        page_bytes(self.alloc, Method::Get, status, kind, b"", body.as_slice())
    }

    /// The response to a reader that asks for the target of this path.
    pub(crate) fn page_response(
        &mut self,
        method: Method,
        path: &[u8],
    ) -> Result<Vec<u8>, AllocError>
        ensures serves { ServesOn self.old self.new }
        ensures post { self.new.post ≡ self.old.post }
    {
        let now = seconds(self.rt).unwrap_or(0);
        let PageContents { status, kind, body } = match str::from_utf8(path) {
            Ok(path) => self.made_of(path, now)?,
            Err(_) => told_page(self.alloc, StatusCode::NOT_FOUND, "no such page\n")?,
        };
        page_bytes(self.alloc, method, status, kind, b"", body.as_slice())
    }
}
