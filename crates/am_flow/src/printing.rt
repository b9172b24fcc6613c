//! Printing of tables.

ghost use Rattle.std.specs.Prelude.{◌∷◌, [], decimal, flat_map};
ghost use Rattle.am_syntax.specs.Canonical.{Appends};
ghost use Rattle.am_flow.specs.Texts.{entry_text, lines_from, table_text, value_text};

use crate::entry::Entry;
use crate::table::Table;
use am_domain::Fields;
use am_syntax::print_word;
use am_text::Writer;
use std::alloc::AllocError;

/// Appends a field after a comma.
fn print_further(out: &mut Writer, field: u8) -> Result<(), AllocError>
    ensures { Appends result out.old out.new (44 ∷ decimal field) }
{
    out.word(b",")?;
    out.number(u128::from(field))
}

/// Appends fields, each after a comma.
fn print_others(out: &mut Writer, fields: &[u8]) -> Result<(), AllocError>
    ensures { Appends result out.old out.new (flat_map (λ c. 44 ∷ decimal c) fields.now) }
{
    'fields: for field in fields {
        print_further(out, *field)?;
    }
    Ok(())
}

/// Appends the fields of a value, with commas between them.
fn print_value(out: &mut Writer, value: &Fields) -> Result<(), AllocError>
    ensures { Appends result out.old out.new (value_text value.now) }
{
    match value.as_slice() {
        [] => Ok(()),
        [first, others @ ..] => {
            out.number(u128::from(*first))?;
            print_others(out, others)
        }
    }
}

/// Appends a value after a space.
fn print_spaced(out: &mut Writer, value: &Fields) -> Result<(), AllocError>
    ensures { Appends result out.old out.new (32 ∷ value_text value.now) }
{
    out.space()?;
    print_value(out, value)
}

/// Appends values, each after a space.
fn print_values(out: &mut Writer, values: &[Fields]) -> Result<(), AllocError>
    ensures { Appends result out.old out.new (flat_map (λ a. 32 ∷ value_text a) values.now) }
{
    'values: for value in values {
        print_spaced(out, value)?;
    }
    Ok(())
}

/// Appends what is known at a node: the values of a row, or a dash for nothing.
fn print_entry(out: &mut Writer, entry: &Entry) -> Result<(), AllocError>
    ensures { Appends result out.old out.new (entry_text entry.now) }
{
    match entry {
        None => print_word(out, b"-"),
        Some(row) => print_values(out, row.as_slice()),
    }
}

/// Appends the line of a node.
#[tactic(auto, using(am_syntax::proofs::Laws::appending))]
fn print_node(out: &mut Writer, node: usize, entry: &Entry) -> Result<(), AllocError>
    ensures { Appends result out.old out.new (lines_from node (entry.now ∷ [])) }
{
    out.word(b"node")?;
    out.space()?;
    out.number(node as u128)?;
    print_entry(out, entry)?;
    out.newline()
}

/// Appends the line of each node, in order.
fn print_nodes(out: &mut Writer, entries: &[Entry]) -> Result<(), AllocError>
    ensures { Appends result out.old out.new (lines_from 0 entries.now) }
{
    'nodes: for (node, entry) in entries.iter().enumerate() {
        print_node(out, node, entry)?;
    }
    Ok(())
}

/// Appends a line for each node of a table, in order.
///
/// # Errors
///
/// There was no memory. The writer holds its old text and a part of the lines from their beginning.
pub fn print_table(out: &mut Writer, t: &Table) -> Result<(), AllocError>
    ensures { Appends result out.old out.new (table_text t.now) }
{
    print_nodes(out, t.as_slice())
}
