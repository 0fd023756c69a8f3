//! The controllers that are served, as their files were looked at last.

use crate::mark::Mark;
use crate::route::Route;
use indexmap::IndexMap;
use job_list::{Work, push_entries, push_spawns};
use shop_folder::Owner;
use std::alloc::{AllocError, Global};
use stored_state::AnyController;
use ticket_items::Id;

/// What a page tells of a controller.
#[derive(Drop)]
pub struct ControllerView {
    pub name: Id,
    /// What is open, in the order in which it went out or came.
    pub open: Vec<Work>,
    /// How much is open no longer.
    pub closed: usize,
}

impl ControllerView {
    /// What is told of this controller.
    pub fn of(alloc: Global, controller: &AnyController) -> Result<ControllerView, AllocError> {
        let mut open = Vec::new(alloc);
        let all = match controller {
            AnyController::Master(master) => {
                push_spawns(alloc, &mut open, master, true)?;
                master.records().len()
            }
            AnyController::Worker(worker) => {
                push_entries(alloc, &mut open, worker, true)?;
                worker.entries().len()
            }
        };
        let closed = all.saturating_sub(open.len());
        Ok(ControllerView {
            name: controller.name().clone()?,
            open,
            closed,
        })
    }
}

/// A controller, as it is known.
#[derive(Drop)]
pub struct Seat {
    pub owner: Owner,
    /// What told of it when it was looked at last.
    pub seen_at: Option<Mark>,
    /// Whether its file was there then.
    pub is_there: bool,
    /// What a page tells of it; nothing where its file holds no controller of its name, or wasn't
    /// read yet.
    pub shown: Option<ControllerView>,
}

/// A controller where it lies, and what tells of it now (our own).
#[derive(Drop)]
pub struct MarkedFile {
    pub route: Route,
    pub mark: Option<Mark>,
}

/// All of them.
#[derive(Drop)]
pub struct ControllerViews {
    /// By the paths of their files, in the order of their numbers.
    pub controllers: IndexMap<String, Seat>,
    /// The numbers of those whose files are to be read.
    pub unread: Vec<usize>,
    /// The moment at which the files are looked at again.
    pub look_at: u64,
}

impl ControllerViews {
    /// None is known yet.
    pub fn new(alloc: Global) -> ControllerViews {
        ControllerViews {
            controllers: IndexMap::new(alloc),
            unread: Vec::new(alloc),
            look_at: 0,
        }
    }

    /// The number of the controller in the file of this path.
    pub fn seat_of(&mut self, alloc: Global, path: &str, to: &Owner) -> Result<usize, AllocError> {
        if let Some(number) = self.controllers.get_index_of(path) {
            return Ok(number);
        }
        let number = self.controllers.len();
        let seat = Seat {
            owner: to.copy(alloc)?,
            seen_at: None,
            is_there: true,
            shown: None,
        };
        self.controllers
            .insert(String::from_str(alloc, path)?, seat)?;
        Ok(number)
    }

    /// The file of a controller is read again at the next look, changed or not.
    pub fn read_again(&mut self, path: &str) {
        if let Some(seat) = self.controllers.get_mut(path) {
            seat.seen_at = None;
        }
    }

    /// Each file is read again at the next look, changed or not.
    pub fn read_all_again(&mut self) {
        for (_, seat) in self.controllers.iter_mut() {
            seat.seen_at = None;
        }
    }

    /// No file is there, as far as is known before a look.
    pub fn forget_places(&mut self) {
        for (_, seat) in self.controllers.iter_mut() {
            seat.is_there = false;
        }
    }

    /// Has a page tell this of a controller.
    pub fn show(&mut self, number: usize, shown: Option<ControllerView>) {
        if let Some(seat) = self.controllers.get_index_mut(number) {
            seat.shown = shown;
        } else {
            drop(shown);
        }
    }

    /// Has the file of a controller read, if it was changed since it was looked at.
    pub fn notice(
        &mut self,
        path: String,
        owner: Owner,
        changed: Option<Mark>,
    ) -> Result<(), AllocError> {
        if let Some(number) = self.controllers.get_index_of(path.as_str()) {
            drop(owner);
            return self.notice_again(number, changed);
        }
        let number = self.controllers.len();
        let seat = Seat {
            owner,
            seen_at: changed,
            is_there: true,
            shown: None,
        };
        self.controllers.insert(path, seat)?;
        Ok(self.unread.push(number)?)
    }

    fn notice_again(&mut self, number: usize, changed: Option<Mark>) -> Result<(), AllocError> {
        let Some(seat) = self.controllers.get_index_mut(number) else {
            return Ok(());
        };
        seat.is_there = true;
        if seat.seen_at != changed {
            seat.seen_at = changed;
            self.unread.push(number)?;
        }
        Ok(())
    }
}
