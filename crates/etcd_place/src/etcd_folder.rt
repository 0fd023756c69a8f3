ghost use Rattle.std.specs.Prelude.{◌≡◌, true};
ghost use Rattle.http_message.specs.Texts.{is_word};
ghost use Rattle.etcd_place.specs.Folder as folders;
ghost use Rattle.etcd_place.specs.Place as places;

use crate::address::is_gateway;
use crate::key_name::is_key_name;
use etcd_cell::{Connector, Gateway, compact, keys_in};
use etcd_wire::{KeyVersion, NoAnswer};
use std::alloc::{AllocError, Global};

/// A folder of values in etcd: the gateway of one of its nodes, and what their names begin with
/// (our own).
#[derive(Clone, Copy)]
pub struct EtcdFolder<'a> {
    gateway: &'a str,
    /// Nothing where every name is in it.
    name: &'a str,
    ghost word: { is_word gateway.now ≡ true },
}

impl<'a> EtcdFolder<'a> {
    ghost use Rattle.std.specs.Prelude.{◌⊎◌, ◌==◌, ℕ, List, Err, option_map, IfOk, MatchOption};
    ghost use Rattle.etcd_wire.specs.Answer.{IsListing, Tells};
    ghost use Rattle.etcd_wire.specs.Answer as answers;
    ghost use Rattle.etcd_wire.specs.declared.no_answer.NoAnswer.TheVariants.{Unknown};
    ghost use Rattle.etcd_cell.specs.Asking.{compaction_asked, listing_asked};
    ghost use Rattle.etcd_cell.specs.Cell.{Learns, LearnsNothing};
    ghost use Rattle.etcd_place.specs.NamedFolder.{named_folder};

    /// The folder that a text is, if it is one: behind `etcd://` HOST:PORT, and behind the next
    /// `/`, if there is one, one to eight names without dots, with `/` between them.
    pub fn of(text: &'a str) -> Option<EtcdFolder<'a>>
        // Proved: A folder in etcd is a text of HOST:PORT, and of no name or one to eight, in
        // which nothing is decoded; the keys of its values begin with the key of that name.
        // By `EtcdFolder::key`.
        ensures { option_map named_folder result ≡ folders.etcd_folder_in text.now }
    {
        let rest = text.strip_prefix("etcd://")?;
        match rest.split_once('/') {
            Some((gateway, name)) => EtcdFolder::named(gateway, name),
            None => EtcdFolder::whole(rest),
        }
    }

    /// The one of these, if they are a gateway and a name.
    fn named(gateway: &'a str, name: &'a str) -> Option<EtcdFolder<'a>>
        ensures { option_map named_folder result ≡ places.place_of gateway.now name.now }
    {
        if is_gateway(gateway) && is_key_name(name) {
            return Some(EtcdFolder { gateway, name });
        }
        None
    }

    /// The one of all names at this gateway, if it is one.
    fn whole(gateway: &'a str) -> Option<EtcdFolder<'a>>
        ensures { option_map named_folder result ≡ folders.whole_of gateway.now }
    {
        if is_gateway(gateway) {
            return Some(EtcdFolder { gateway, name: "" });
        }
        None
    }

    /// What the keys of its values begin with, before a `/`.
    pub fn key(&self, alloc: Global) -> Result<Vec<u8>, AllocError>
        ensures { IfOk result (λ key. key.items
            ≡ folders.folder_key (named_folder self.now).name) }
    {
        let mut key = Vec::from_slice(alloc, b"toarnbif")?;
        if !self.name.is_empty() {
            key.extend_from_slice(b"/")?;
            key.extend_from_slice(self.name.as_bytes())?;
        }
        Ok(key)
    }

    /// The keys of the values in it and below it, each with its revision, over a connection that is
    /// made for it. Refuses `Unknown` where no answer comes that tells them, and `Memory`.
    pub fn keys<C: Connector>(
        &self,
        alloc: Global,
        connector: &C,
    ) -> Result<Vec<KeyVersion>, NoAnswer>
        // Proved: The keys of a folder are asked of its gateway, by the key of its name, over one
        // connection; they are those that the response tells.
        // By `ok`, `unknown`.
        ensures ok { IfOk result (λ ks. Learns C.Stream.remaining C.Stream.contents
            (C.connects connector.now (named_folder self.now).gateway)
            (listing_asked (named_folder self.now).gateway
            (folders.folder_key (named_folder self.now).name))
            (λ status body. Tells status body (λ _ j. IsListing j ks.items))) }
        ensures unknown { result ≡ Err Unknown →
            LearnsNothing C.Stream.remaining C.Stream.contents
            (C.connects connector.now (named_folder self.now).gateway)
            (listing_asked (named_folder self.now).gateway
            (folders.folder_key (named_folder self.now).name))
            ⊎ Learns C.Stream.remaining C.Stream.contents
            (C.connects connector.now (named_folder self.now).gateway)
            (listing_asked (named_folder self.now).gateway
            (folders.folder_key (named_folder self.now).name))
            (λ status body. (ks : List answers.KeyVersion)
            → Tells status body (λ _ j. IsListing j ks) → ⊥) }
    {
        let key = self.key(alloc)?;
        match Gateway::of(alloc, self.gateway)? {
            Some(gateway) => keys_in(alloc, connector, &gateway, key.as_slice()),
            None => unreachable!(),
        }
    }

    /// Asks the engine to forget what stood under any key of its before a revision, over a
    /// connection that is made for it. Tells whether it was taken: it isn't where that is forgotten
    /// already. Refuses `Unknown` where there is no connection or no response, and `Memory`.
    pub fn compact<C: Connector>(
        &self,
        alloc: Global,
        connector: &C,
        revision: u64,
    ) -> Result<bool, NoAnswer>
        // Proved: The gateway of a folder is asked once, over one connection, to forget what stood
        // before a revision; and it is told whether the response's status is 200.
        // By `ok`, `unknown`.
        ensures ok { IfOk result (λ taken. Learns C.Stream.remaining C.Stream.contents
            (C.connects connector.now (named_folder self.now).gateway)
            (compaction_asked (named_folder self.now).gateway revision)
            (λ status body. taken ≡ (status == 200))) }
        ensures unknown { result ≡ Err Unknown →
            LearnsNothing C.Stream.remaining C.Stream.contents
            (C.connects connector.now (named_folder self.now).gateway)
            (compaction_asked (named_folder self.now).gateway revision) }
    {
        match Gateway::of(alloc, self.gateway)? {
            Some(gateway) => compact(alloc, connector, &gateway, revision),
            None => unreachable!(),
        }
    }

    /// What stands behind the folder and a `/` in the key of a value, if that is in it or below it.
    pub fn rest_of<'k>(&self, key: &'k [u8]) -> Option<&'k str>
        // Proved: A key is of a value in a folder or below it where it is UTF-8 and begins with the
        // folder's key and a `/`, and is then told by what stands behind that.
        ensures { MatchOption result
            ((rest : List ℕ) → folders.IsBelow (named_folder self.now).name key.now rest → ⊥)
            (λ rest. folders.IsBelow (named_folder self.now).name key.now rest.now) }
    {
        let text = str::from_utf8(key).ok()?;
        let rest = text.strip_prefix("toarnbif/")?;
        if self.name.is_empty() {
            return Some(rest);
        }
        let behind = rest.strip_prefix(self.name)?;
        behind.strip_prefix("/")
    }
}
