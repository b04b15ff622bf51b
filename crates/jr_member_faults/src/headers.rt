// What headers name as supertypes (JLS 8.1.4, 8.1.5, 9.1.3).
ghost use Rattle.std.specs.Prelude.{◌≡◌, ◌+◌, ◌<◌, [], OnOk, length};
ghost use Rattle.jr_defs.specs.Referents.{entries};
ghost use Rattle.jr_name_rules.specs.HeaderTests as plain;
ghost use Rattle.jr_member_faults.specs.Headers as tell;

use crate::listing::add_entry;
use jr_base::OutOfMemory;
use jr_places::{Chains, Entry, is_class, is_final, is_inner, is_interface, parent_at};
use jr_supers::{HeaderPlace, Tabled, header_place};
use jr_tree::Row;
use std::alloc::Global;

/// The superinterfaces that headers name in the rows so far, under the type and the superinterface.
#[derive(Drop)]
pub struct Headers {
    superinterfaces: Chains,
}

// What a row adds that stands there in a header and names the type.
fn superinterface_entry(
    rows: &[Row],
    at: u32,
    place: Option<HeaderPlace>,
    over: Option<u32>,
) -> Option<Entry>
    ensures { result ≡ tell.entry_by rows.now at place over }
{
    match place {
        Some(HeaderPlace::Superinterface) => match over {
            Some(second) => Some(Entry {
                first: parent_at(rows, at),
                second,
                row: at,
            }),
            None => None,
        },
        _ => None,
    }
}

impl Headers {
    /// None.
    pub fn new(alloc: Global) -> Headers
        ensures { result.superinterfaces ≡ [] }
    {
        Headers {
            superinterfaces: Chains::new(alloc),
        }
    }

    // The type may not be the supertype that the row names in a header.
    fn is_wrong(&self, rows: &[Row], at: u32, place: Option<HeaderPlace>, over: Option<u32>) -> bool
        ensures { result ≡ tell.is_wrong rows.now self.now.superinterfaces at place over }
    {
        let Some(over) = over else {
            return false;
        };
        match place {
            Some(HeaderPlace::Superclass) => {
                is_final(rows, over) || (is_interface(rows, over) || is_inner(rows, over))
            }
            Some(HeaderPlace::Superinterface) => {
                is_class(rows, over)
                    || self
                        .superinterfaces
                        .last(parent_at(rows, at), over)
                        .is_some()
            }
            None => false,
        }
    }

    /// A superclass is final, an interface or an inner class, or a superinterface is a class or named before.
    pub fn has_wrong_supertype(&self, under: &Tabled, at: u32) -> bool
        ensures { at < length under.now.rows.now → tell.AreHeadersTo under.now.rows.now (entries under.now.table.now) at self.now.superinterfaces → result ≡ plain.has_wrong_supertype under.now.rows.now (entries under.now.table.now) at }
    {
        let place = header_place(under.rows, at);
        let over = under.declared(at);
        self.is_wrong(under.rows, at, place, over)
    }

    /// Adds the row to those so far, if it is a superinterface.
    pub fn pass(&mut self, alloc: Global, under: &Tabled, at: u32) -> Result<(), OutOfMemory>
        ensures { tell.AreHeadersTo under.now.rows.now (entries under.now.table.now) at self.old.superinterfaces → OnOk result (tell.AreHeadersTo under.now.rows.now (entries under.now.table.now) (at + 1) self.new.superinterfaces) }
    {
        let place = header_place(under.rows, at);
        let over = under.declared(at);
        let entry = superinterface_entry(under.rows, at, place, over);
        add_entry(alloc, &mut self.superinterfaces, entry)?;
        Ok(())
    }
}
