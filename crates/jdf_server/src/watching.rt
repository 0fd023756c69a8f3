//! The files of what is served, and the peers' file, as they change beside the server.

use crate::lines::keep_in;
use crate::server::Server;
use etcd_place::is_etcd;
use keepers::Locks;
use server_post::{PeersRead, changed_at};
use server_steps::{Engine, Look, Mark, MarkedFile, Route, controllers_in, look_at_path};
use shop_folder::{FolderFile, Owner, Place, files_in};
use std::alloc::{Alloc, AllocError, Global};
use std::io::{self, Write};
use std::mem;
use std::net::Net;
use std::rt::Files;
use std::time::{Clock, SystemTime};
use stored_state::SavedState;

/// After how many milliseconds the files are looked at again.
const LOOK_TIME: u64 = 1_000;

/// For how many milliseconds files are read in one round.
const READ_TIME: u64 = 50;

/// What tells of a file whether it is to be read again: when it was changed.
fn mark_of<R: Files>(rt: &R, path: &str) -> Option<Mark> {
    match changed_at(rt, path) {
        Some(changed) => Some(Mark::Moment(changed)),
        None => None,
    }
}

/// The same of the one controller that is served: under a key it is read at each look.
fn mark_of_one<R: Files + Clock>(rt: &R, path: &str) -> Option<Mark> {
    if !is_etcd(path) {
        return mark_of(rt, path);
    }
    match SystemTime::now(rt) {
        Ok(now) => Some(Mark::Moment(now)),
        Err(_) => None,
    }
}

/// The files of a folder.
fn files_of<R: Files + Alloc + Clone + Drop>(
    rt: &R,
    alloc: Global,
    folder: &str,
) -> io::Result<Vec<MarkedFile>> {
    let files = files_in(rt, alloc, folder)?;
    let mut marked = Vec::with_capacity(alloc, files.len())?;
    for FolderFile { path, owner } in files {
        let mark = mark_of(rt, path.as_str());
        let route = Route { path, to: owner };
        marked.push(MarkedFile { route, mark })?;
    }
    Ok(marked)
}

/// What is served, where that can be told.
fn served_now<R: Files + Net + Clock + Alloc + Clone + Drop>(
    rt: &R,
    alloc: Global,
    place: &Place<'_>,
    engine: &mut Engine,
) -> Result<Option<Vec<MarkedFile>>, AllocError> {
    match place {
        Place::File(file) => {
            let mut files = Vec::with_capacity(alloc, 1)?;
            let mark = mark_of_one(rt, file);
            let path = String::from_str(alloc, file)?;
            let to = Owner::Any;
            let route = Route { path, to };
            files.push(MarkedFile { route, mark })?;
            Ok(Some(files))
        }
        Place::Folder(folder) => {
            if is_etcd(folder) {
                return controllers_in(rt, alloc, folder, engine);
            }
            Ok(files_of(rt, alloc, folder).ok())
        }
    }
}

impl<R, F> Server<'_, R, F> {
    /// Whether the files are looked at: something goes out from them by itself, or is shown.
    pub(crate) fn watches(&self) -> bool {
        self.post.is_some() || self.is_shown()
    }

    /// Whether somebody may look.
    pub(crate) fn is_shown(&self) -> bool {
        self.readers.is_open() || self.operators.is_open()
    }
}

impl<'a, R: Locks + Net + Clock + Alloc + Clone + Drop, F: Write + Drop> Server<'a, R, F> {
    /// Reads the peers' file, if it was changed, and looks up the hosts that it names.
    fn watch_peers(&mut self) -> Result<(), AllocError> {
        let Some(post) = &mut self.post else {
            return Ok(());
        };
        match post.read_peers(self.rt, self.alloc) {
            PeersRead::Same => {}
            PeersRead::Changed => self.watched.read_all_again(),
            PeersRead::Wrong => self
                .clients
                .log
                .push("The peers' file is wrong: the table stays as it was\n"),
        }
        let (rt, moments) = (self.rt, &self.moments);
        post.houses
            .look_up(rt, self.alloc, &post.peers, moments, self.clients.now)
    }

    /// The moment at which the files are looked at or read.
    pub(crate) fn look_moment(&self) -> u64 {
        if !self.watches() {
            u64::MAX
        } else if self.watched.unread.is_empty() {
            self.watched.look_at
        } else {
            0
        }
    }

    /// Looks at the files, if it is time for that, and has those read that were changed.
    pub(crate) fn watch(&mut self) -> Result<(), AllocError> {
        if !self.watches() || self.watched.look_at > self.clients.now {
            return Ok(());
        }
        self.watched.look_at = self.clients.now.saturating_add(LOOK_TIME);
        self.watch_peers()?;
        let (rt, engine) = (self.rt, &mut self.engine);
        let Some(files) = served_now(rt, self.alloc, &self.place, engine)? else {
            return Ok(());
        };
        self.watched.forget_places();
        for MarkedFile { route, mark } in files {
            let Route { path, to } = route;
            self.watched.notice(path, to, mark)?;
        }
        Ok(())
    }

    /// Reads files that were changed, as long as there is time.
    pub(crate) fn read_files(&mut self) -> Result<(), AllocError> {
        let until = self.clients.now.saturating_add(READ_TIME);
        let unread = mem::replace(&mut self.watched.unread, Vec::new(self.alloc));
        for number in unread {
            if self.moments.now(self.rt, self.clients.now) < until {
                self.read_file(number)?;
            } else {
                self.watched.unread.push(number)?;
            }
        }
        Ok(())
    }

    /// Sees what a controller has out, and what a page tells of it, by what was found in its file.
    fn see_look(
        &mut self,
        number: usize,
        look: &Look,
        last: &Option<SavedState>,
    ) -> Result<(), AllocError> {
        match (look, last) {
            (Look::Found(found), _) => self.see_controller(number, found.controller()),
            (Look::Same, Some(saved)) => self.see_controller(number, saved.controller()),
            (Look::LockedOut | Look::Unanswered, _) => {
                if let Some(seat) = self.watched.controllers.get_index_mut(number) {
                    seat.seen_at = None;
                }
                Ok(())
            }
            _ => {
                self.watched.show(number, None);
                Ok(())
            }
        }
    }

    /// Sees what the controller in a file has out. Where somebody else has that locked, it is read
    /// later.
    fn read_file(&mut self, number: usize) -> Result<(), AllocError> {
        let Some((path, seat)) = self.watched.controllers.get_index(number) else {
            return Ok(());
        };
        let last = self.saved.take(path.as_str());
        let to = seat.owner.as_addressee();
        let (rt, engine) = (self.rt, &mut self.engine);
        let look = look_at_path(rt, self.alloc, path.as_str(), to, &last, engine);
        let path = path.clone()?;
        let seen = self.see_look(number, &look, &last);
        drop(look);
        keep_in(self.alloc, &mut self.saved, path.as_str(), last)?;
        seen
    }
}
