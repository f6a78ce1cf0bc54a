// The three lent tables: zeroing them, and entering numbers. They are never read back. They go as three slices here too: of a struct that
// holds them and is lent, no clause says that a callee leaves each slice in its field, so what the tables hold at a public function's return
// would stay open (tried with zero_all).
ghost use Rattle.std.specs.Prelude.{◌≡◌, length};
ghost use Rattle.decoders.specs.Machine.{stored, enter};
ghost use Rattle.decoders.specs.Feeding.{tables, cleared, sizes_of};
ghost use Rattle.decoders.specs.Needs.{Storable, Enterable};

use crate::{Entered, Table};

pub(crate) fn zero_all(inputs: &mut [u32], outputs: &mut [u32], items: &mut [u32])
    ensures { tables inputs.new outputs.new items.new ≡ cleared (tables inputs.old outputs.old items.old) }
{
    inputs.fill(0);
    outputs.fill(0);
    items.fill(0);
}

fn store(t: &mut [u32], e: Entered)
    requires { Storable e (length t.old) }
    ensures { t.new ≡ stored e t.old }
{
    t[e.at] = e.number as u32;
    if let Some(n) = e.next {
        t[e.at + 1] = n as u32;
    }
}

pub(crate) fn enter(
    entered: Option<Entered>,
    inputs: &mut [u32],
    outputs: &mut [u32],
    items: &mut [u32],
)
    requires { Enterable entered (sizes_of (tables inputs.old outputs.old items.old)) }
    ensures { tables inputs.new outputs.new items.new ≡ enter entered (tables inputs.old outputs.old items.old) }
{
    let Some(e) = entered else {
        return;
    };
    match e.table {
        Table::Input => store(inputs, e),
        Table::Output => store(outputs, e),
        Table::Item => store(items, e),
    }
}
