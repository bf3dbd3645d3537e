//! The table that is checked, with what is computed once.

ghost use Rattle.std.specs.Prelude.{◌≡◌, ℕ, ◌<◌, false, Some, IfSome, is_some, length, option_copied, slice_index_or};
ghost use Rattle.std.proofs.Props.{props};
ghost use Rattle.kc_cert.specs.Conditions.{covers_entry, returns, summary_of};
ghost use Rattle.kc_cert.specs.Form.{HasForm};
ghost use Rattle.kc_cert.specs.Placed.{vectors_in_order};
ghost use Rattle.kc_cert.specs.Table.{covers, number_of};

use crate::returning::Returning;
use kc_absevent::Entry;
use kc_cert::{Certificate, entry_site, node_at, number_of};
use kc_image::Image;
use kc_lattice::Domain;
use kc_placed::Vectors;
use kc_regions::Config;
use kc_state::{AbsState, Key, Site, Summary};

/// A certificate in its form, with its image and its description.
#[derive(Drop)]
pub(crate) struct Table<'a> {
    pub image: &'a Image,
    pub cfg: &'a Config,
    pub cert: &'a Certificate,
    pub vectors: Vectors,
    pub returning: Returning,
    ghost form: { HasForm cfg.now cert.now } by { Prim.hlevel props },
    ghost vectors_in_order: { vectors ≡ vectors_in_order cfg.now },
    ghost returning_of: { (i : ℕ) → i < length cert.now.contexts
        → slice_index_or returning i false ≡ returns image.now cert.now i },
}

impl<'a> Table<'a> {
    pub(crate) fn new(image: &'a Image, cfg: &'a Config, cert: &'a Certificate) -> Table<'a>
        requires form { HasForm cfg.now cert.now }
        ensures image { result.image.now ≡ image.now }
        ensures cfg { result.cfg.now ≡ cfg.now }
        ensures cert { result.cert.now ≡ cert.now }
    {
        Table {
            image,
            cfg,
            cert,
            vectors: Vectors::in_order(cfg),
            returning: Returning::of(image, cert),
        }
    }

    /// Whether context `i` has a node at the site whose state is at or above this one.
    pub(crate) fn covers(&self, i: u32, site: &Site, state: &AbsState) -> bool
        ensures { result ≡ covers self.now.cert.now i site.now state.now }
    {
        match node_at(self.cert, i, site) {
            Some(node) => state.leq(&node.state),
            None => false,
        }
    }

    /// The number of the context of this key, where its entry covers the state.
    pub(crate) fn entered(&self, key: &Key, state: &AbsState) -> Option<u32>
        ensures found { IfSome result (λ i. number_of self.now.cert.now key.now ≡ Some i) }
        ensures within { IfSome result (λ i. i < length self.now.cert.now.contexts) }
        ensures covered { is_some result ≡ covers_entry self.now.cfg.now self.now.cert.now key.now state.now
            (number_of self.now.cert.now key.now) }
    {
        let i = number_of(self.cert, key)?;
        let site = entry_site(self.cfg, key)?;
        if self.covers(i, &site, state) {
            Some(i)
        } else {
            None
        }
    }

    // Whether context `i` has a node at the site whose state is at or above what is known at the entry.
    fn covers_entry(&self, i: u32, site: &Site, entry: &Entry) -> bool
        ensures { result ≡ covers self.now.cert.now i site.now entry.now.1 }
    {
        match node_at(self.cert, i, site) {
            Some(node) => entry.is_below(&node.state),
            None => false,
        }
    }

    /// The same of what an event enters.
    pub(crate) fn admit(&self, entry: &Entry) -> Option<u32>
        ensures found { IfSome result (λ i. number_of self.now.cert.now entry.now.0 ≡ Some i) }
        ensures within { IfSome result (λ i. i < length self.now.cert.now.contexts) }
        ensures covered { is_some result ≡ covers_entry self.now.cfg.now self.now.cert.now entry.now.0 entry.now.1
            (number_of self.now.cert.now entry.now.0) }
    {
        let key = entry.key;
        let i = number_of(self.cert, &key)?;
        let site = entry_site(self.cfg, &key)?;
        if self.covers_entry(i, &site, entry) {
            Some(i)
        } else {
            None
        }
    }

    /// The summary of context `i`, if it returns.
    pub(crate) fn summary_of(&self, i: u32) -> Option<&Summary>
        requires within { i < length self.now.cert.now.contexts }
        ensures value { option_copied result ≡ summary_of self.now.image.now self.now.cert.now (Some i) }
    {
        if self.returning.has(i) {
            match self.cert.contexts.get(i as usize) {
                Some(context) => Some(&context.summary),
                None => None,
            }
        } else {
            None
        }
    }
}
