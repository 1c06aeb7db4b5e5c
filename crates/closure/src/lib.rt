// The closure of a relation on at most 64 wires, which is held as one set for each wire: those that it leads to.
// The sets stand as bare bits, since the clauses of `Rows` speak of a list of numbers.
// Rests on `wires` for the sets.
#![tactic(auto)]

ghost use Rattle.std.specs.Prelude.{◌≡◌, Bool, ℕ, ◌≤◌, ◌<◌, length};
ghost use Rattle.closure.specs.Closures.{let_in, through, lowest_loop, Rows};

use wires::Wires;

// Lets wire k in between: whatever leads to it leads to all that it leads to. A wire that leads nowhere adds nothing.
fn let_in(rows: &mut [u64; 64], count: usize, k: usize)
    requires { (k < count) × (count ≤ 64) × (64 ≤ length rows.old) }
    ensures by_index { (test : ℕ → ℕ → Bool) → Rows test count rows.old → Rows (let_in test k) count rows.new }
    ensures rows_len_unchanged { length rows.new ≡ length rows.old }
{
    let own = Wires { bits: rows[k] };
    if own.bits == 0 {
        return;
    }
    for v in 0..count {
        let row = Wires { bits: rows[v] };
        if row.has(k) {
            rows[v] = row.joined(own).bits;
        }
    }
}

// Closes the relation in place: each wire's set becomes that of all wires to which it leads in one or more steps.
fn close(rows: &mut [u64; 64], count: usize)
    requires { (count ≤ 64) × (64 ≤ length rows.old) }
    ensures { (test : ℕ → ℕ → Bool) → Rows test count rows.old → Rows (through test count) count rows.new }
{
    for k in 0..count {
        let_in(rows, count, k);
    }
}

// The lowest wire that leads to itself in one or more steps, or the count of the wires where none does. The rows are
// closed in place, and what they hold then is free. The count for none is what the definition of the same name says.
pub fn lowest_loop(rows: &mut [u64; 64], count: usize) -> usize
    requires { (count ≤ 64) × (64 ≤ length rows.old) }
    ensures { (test : ℕ → ℕ → Bool) → Rows test count rows.old → result ≡ lowest_loop test count }
{
    close(rows, count);
    for w in 0..count {
        let row = Wires { bits: rows[w] };
        if row.has(w) {
            return w;
        }
    }
    count
}
