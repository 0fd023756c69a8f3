use crate::health::Health;
use indexmap::IndexMap;
use listeners::{Guests, Moments, OrderListener, PageListener};
use mio::{Events, Poll};
use rounds::SavedStates;
use server_clients::Clients;
use server_post::{Line, Post};
use server_steps::{ControllerViews, Engine};
use shop_folder::Place;
use std::alloc::Global;

/// How many clients' streams are looked at in one round at most.
pub(crate) const MAX_EVENTS: usize = 1_024;

/// A server, from one round to the next.
#[derive(Drop)]
pub struct Server<'a, R, F> {
    pub(crate) rt: &'a R,
    pub(crate) alloc: Global,
    pub(crate) place: Place<'a>,
    /// The name of the header field that tells who sends, where there is one.
    pub(crate) sender_field: Option<&'a str>,
    /// The path of the journal, where there is one.
    pub(crate) journal: Option<&'a str>,
    pub(crate) moments: Moments,
    pub(crate) poll: Poll,
    pub(crate) events: Events,
    pub(crate) clients: Clients<'a, R, F>,
    /// Those who look at the page.
    pub(crate) readers: Guests<PageListener>,
    /// Those who give orders.
    pub(crate) operators: Guests<OrderListener>,
    pub(crate) health: Health,
    /// The engine that keeps what is served, where that isn't a file.
    pub(crate) engine: Engine,
    /// Those whose requests wait, by the paths of their controllers, in the order of their turns.
    pub(crate) lines: IndexMap<String, Line>,
    /// Whether a line waits for a file that somebody else has locked.
    pub(crate) is_locked_out: bool,
    pub(crate) saved: SavedStates,
    /// The controllers, as their files were looked at last.
    pub(crate) watched: ControllerViews,
    /// What goes out by itself, where other controllers are known.
    pub(crate) post: Option<Post>,
}
