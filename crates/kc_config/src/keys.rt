//! What a table has at a key, or the fault of that key.

ghost use Rattle.std.specs.Prelude.{◌≡◌, ◌⊎◌, option_map, map, List, ℕ, Err, is_some, IfOk, OnOk, true, not, string_bytes, ◌<◌, ◌^◌};
ghost use Rattle.std.specs.List.{list_any, find};
ghost use Rattle.std.specs.Option.{option_copied};
ghost use Rattle.std.specs.BTreeMap.{keys};
ghost use Rattle.std.specs.Str.{bytes_eq};
ghost use Rattle.toml.specs.View.{view, table_view};
ghost use Rattle.toml.specs.Data.{as_str, as_table, get_member};
ghost use Rattle.kc_config.specs.Paths.{path};
ghost use Rattle.kc_config.specs.Faults.{Reads, no_memory};
ghost use Rattle.kc_config.specs.Keys.{value, in_range, boolean, flag, integer, number, text, address, table, array, array_of, form_of, known_keys, first_unknown, only_keys};
ghost use Rattle.kc_config.specs.Seen.{seen, spelled};

use crate::address::{Spelling, find_address, read_address};
use crate::fault::{ConfigFault, missing, no_symbol, out_of_range, unknown_key, wrong_kind};
use crate::path::Place;
use kc_image::Image;
use std::alloc::Global;
use toml::{Table, Value};

/// A table at its place, beside the image whose symbols its address texts may name.
#[derive(Clone, Copy)]
pub(crate) struct Reader<'a> {
    pub(crate) alloc: Global,
    pub(crate) image: &'a Image,
    pub(crate) place: Place,
    pub(crate) table: &'a Table,
}

impl<'a> Reader<'a> {
    /// Whether the key is there.
    pub(crate) fn has(&self, key: &str) -> bool
        ensures { result ≡ is_some (get_member key.now (seen self.now).members) }
    {
        self.find(key).is_some()
    }

    fn find(&self, key: &str) -> Option<&'a Value>
        ensures { option_map (λ v. view v.now) result ≡ get_member key.now (seen self.now).members }
    {
        self.table.get(key)
    }

    /// The value of a key that has to be there.
    fn value(&self, key: &str) -> Result<&'a Value, ConfigFault>
        ensures { Reads (λ v. view v.now) result (value (seen self.now) key.now) }
    {
        match self.find(key) {
            Some(value) => Ok(value),
            None => Err(missing(self.alloc, self.place, key)),
        }
    }

    /// The fault of a value of another kind.
    pub(crate) fn wrong_kind(&self, key: &str) -> ConfigFault
        ensures { (result ≡ no_memory) ⊎ (result ≡ ConfigFault.WrongKind (path (seen self.now).place key.now)) }
    {
        wrong_kind(self.alloc, self.place, key)
    }

    /// The fault of a value out of its range.
    pub(crate) fn out_of_range(&self, key: &str) -> ConfigFault
        ensures { (result ≡ no_memory) ⊎ (result ≡ ConfigFault.OutOfRange (path (seen self.now).place key.now)) }
    {
        out_of_range(self.alloc, self.place, key)
    }

    /// Refuses a value for which its rule doesn't hold.
    pub(crate) fn in_range(&self, key: &str, holds: bool) -> Result<(), ConfigFault>
        ensures read { Reads (λ x. x) result (in_range (seen self.now) key.now holds) }
        ensures holds { OnOk result (holds ≡ true) }
    {
        if holds {
            Ok(())
        } else {
            Err(self.out_of_range(key))
        }
    }

    #[tactic(auto, unfolding(crate::specs::Keys::boolean))]
    pub(crate) fn boolean(&self, key: &str) -> Result<bool, ConfigFault>
        ensures { Reads (λ b. b) result (boolean (seen self.now) key.now) }
    {
        match self.value(key)?.as_bool() {
            Some(found) => Ok(found),
            None => Err(self.wrong_kind(key)),
        }
    }

    /// A boolean that is false where it is absent.
    pub(crate) fn flag(&self, key: &str) -> Result<bool, ConfigFault>
        ensures { Reads (λ b. b) result (flag (seen self.now) key.now) }
    {
        if self.has(key) {
            self.boolean(key)
        } else {
            Ok(false)
        }
    }

    #[tactic(auto, unfolding(crate::specs::Keys::integer))]
    fn integer(&self, key: &str) -> Result<i64, ConfigFault>
        ensures { Reads (λ z. z) result (integer (seen self.now) key.now) }
    {
        match self.value(key)?.as_integer() {
            Some(found) => Ok(found),
            None => Err(self.wrong_kind(key)),
        }
    }

    /// An integer of 0 and more.
    #[tactic(auto, unfolding(crate::specs::Keys::number))]
    pub(crate) fn number(&self, key: &str) -> Result<u64, ConfigFault>
        ensures { Reads (λ n. n) result (number (seen self.now) key.now) }
    {
        match u64::try_from(self.integer(key)?) {
            Ok(n) => Ok(n),
            Err(_) => Err(self.out_of_range(key)),
        }
    }

    #[tactic(auto, unfolding(crate::specs::Keys::text))]
    pub(crate) fn text(&self, key: &str) -> Result<&'a str, ConfigFault>
        ensures { Reads (λ t. t.now) result (text (seen self.now) key.now) }
    {
        match self.value(key)?.as_str() {
            Some(found) => Ok(found),
            None => Err(self.wrong_kind(key)),
        }
    }

    /// An address: a number, a symbol's, or a sum of both that is below 2^64.
    #[tactic(auto, unfolding(crate::specs::Keys::address))]
    pub(crate) fn address(&self, key: &str) -> Result<u64, ConfigFault>
        ensures read { Reads (λ a. a) result (address (seen self.now) key.now) }
        ensures in_range { IfOk result (λ a. a < 2 ^ 64) }
    {
        let Some(spelling) = read_address(self.text(key)?) else {
            return Err(self.wrong_kind(key));
        };
        let Some(sum) = find_address(self.image, &spelling) else {
            return Err(no_symbol(self.alloc, self.place, key));
        };
        match sum.base.checked_add(sum.added) {
            Some(address) => Ok(address),
            None => Err(self.out_of_range(key)),
        }
    }

    #[tactic(auto, unfolding(crate::specs::Keys::table))]
    pub(crate) fn table(&self, key: &str) -> Result<&'a Table, ConfigFault>
        ensures { Reads (λ t. table_view t.now) result (table (seen self.now) key.now) }
    {
        match self.value(key)?.as_table() {
            Some(found) => Ok(found),
            None => Err(self.wrong_kind(key)),
        }
    }

    #[tactic(auto, unfolding(crate::specs::Keys::array))]
    pub(crate) fn array(&self, key: &str) -> Result<&'a [Value], ConfigFault>
        ensures { Reads (λ v. map view v.now) result (array (seen self.now) key.now) }
    {
        match self.value(key)?.as_array() {
            Some(found) => Ok(found.as_slice()),
            None => Err(self.wrong_kind(key)),
        }
    }

    /// An array of tables.
    #[tactic(auto, unfolding(crate::specs::Keys::array_of))]
    pub(crate) fn tables(&self, key: &str) -> Result<Vec<&'a Table>, ConfigFault>
        ensures { Reads (λ v. map (λ t. table_view t.now) v.items) result (array_of as_table (seen self.now) key.now) }
    {
        let mut tables = Vec::new(self.alloc);
        for item in self.array(key)? {
            match item.as_table() {
                Some(table) => tables.push(table)?,
                None => return Err(self.wrong_kind(key)),
            }
        }
        Ok(tables)
    }

    /// An array of texts.
    #[tactic(auto, unfolding(crate::specs::Keys::array_of))]
    pub(crate) fn texts(&self, key: &str) -> Result<Vec<&'a str>, ConfigFault>
        ensures { Reads (λ v. map (λ t. t.now) v.items) result (array_of as_str (seen self.now) key.now) }
    {
        let mut texts = Vec::new(self.alloc);
        for item in self.array(key)? {
            match item.as_str() {
                Some(text) => texts.push(text)?,
                None => return Err(self.wrong_kind(key)),
            }
        }
        Ok(texts)
    }

    /// An array of address texts.
    #[tactic(auto, unfolding(crate::specs::Keys::array_of))]
    pub(crate) fn forms(&self, key: &str) -> Result<Vec<Spelling<'a>>, ConfigFault>
        ensures { Reads (λ v. map spelled v.items) result (array_of form_of (seen self.now) key.now) }
    {
        let mut forms = Vec::new(self.alloc);
        for item in self.array(key)? {
            match read_form(item) {
                Some(form) => forms.push(form)?,
                None => return Err(self.wrong_kind(key)),
            }
        }
        Ok(forms)
    }

    /// Refuses a table that has a key beside its own.
    pub(crate) fn only_keys(&self) -> Result<(), ConfigFault>
        ensures { Reads (λ x. x) result (only_keys (seen self.now)) }
    {
        match find_unknown(self.place, self.table) {
            Some(key) => Err(unknown_key(self.alloc, self.place, key.as_str())),
            None => Ok(()),
        }
    }
}

/// The first key, by the order of bytes, that a table at this place may not have.
fn find_unknown(place: Place, table: &Table) -> Option<&String>
    ensures { option_map (λ k. string_bytes k.now) result ≡ first_unknown place (table_view table.now) }
{
    find_key(place, table)
}

fn find_key(place: Place, table: &Table) -> Option<&String>
    ensures { option_copied result ≡ find (λ k. not (list_any (bytes_eq (string_bytes k)) (known_keys place)))
        (keys table.now) }
{
    table.keys().find(|key| !is_key(place, key.as_str()))
}

/// How the value writes an address.
fn read_form(item: &Value) -> Option<Spelling<'_>>
    ensures { option_map spelled result ≡ form_of (view item.now) }
{
    match item.as_str() {
        Some(text) => read_address(text),
        None => None,
    }
}

/// Whether a table at this place may have the key.
fn is_key(place: Place, key: &str) -> bool
    ensures { result ≡ list_any (bytes_eq key.now) (known_keys place) }
{
    match place {
        Place::AtTop => is_top_key(key),
        Place::InCpu => is_cpu_key(key),
        Place::InRegion(_) => is_region_key(key),
        Place::InGate(_) => is_gate_key(key),
        Place::InHandler(_) => is_handler_key(key),
        Place::InWord(_) => key == "at" || key == "value",
    }
}

fn is_top_key(key: &str) -> bool
    ensures { result ≡ list_any (bytes_eq key.now) (known_keys (Place.AtTop)) }
{
    key == "version"
        || key == "cpu"
        || key == "region"
        || key == "gate"
        || key == "handler"
        || key == "word"
}

fn is_cpu_key(key: &str) -> bool
    ensures { result ≡ list_any (bytes_eq key.now) (known_keys (Place.InCpu)) }
{
    key == "kernel_gs"
        || key == "kernel_cr3"
        || key == "user_cr3"
        || key == "idt"
        || key == "gdt"
        || key == "tss"
        || key == "syscall"
        || key == "fmask"
        || key == "star_kernel"
        || key == "star_user"
        || key == "user_cs32"
        || key == "user_gs_writes"
        || key == "rsp0"
        || key == "ist"
}

fn is_region_key(key: &str) -> bool
    ensures { result ≡ list_any (bytes_eq key.now) (known_keys (Place.InRegion 0)) }
{
    key == "name"
        || key == "at"
        || key == "size"
        || key == "kind"
        || key == "user_map"
        || key == "write"
        || key == "exec"
        || key == "may_fault"
        || key == "quiet"
        || key == "marked"
}

fn is_gate_key(key: &str) -> bool
    ensures { result ≡ list_any (bytes_eq key.now) (known_keys (Place.InGate 0)) }
{
    key == "vector" || key == "entry" || key == "ist" || key == "trap" || key == "user"
}

fn is_handler_key(key: &str) -> bool
    ensures { result ≡ list_any (bytes_eq key.now) (known_keys (Place.InHandler 0)) }
{
    key == "entry"
        || key == "stack"
        || key == "events"
        || key == "after_if"
        || key == "returns"
        || key == "frame"
}
