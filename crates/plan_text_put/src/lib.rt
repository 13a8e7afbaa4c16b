// A reconciliation's list as text: a line for each entry, and a last one with the counts.
#![tactic(auto)]

ghost use Rattle.std.specs.Prelude.{◌+◌, ◌≤◌, ◌<◌, ◌/◌, ◌^◌, length};
ghost use Rattle.listing_spell.specs.Puts.{Wrote};
ghost use Rattle.plan_text.specs.Text.{counts_text};
ghost use Rattle.plan_text.specs.Words.{entries_text, plan_bytes};

use listing_spell::Text;
use plan_text_path::Sides;

// The lines of all entries.
fn put_entries(text: &mut Text, list: &[u32], s: Sides)
    requires { (length list.now ≤ 36864) × (text.old.at + 2 ^ 35 < 2 ^ 64) }
    ensures { Wrote text.old (entries_text s.entry.left.now s.entry.right.now (length list.now / 3) list.now) (2 ^ 35) text.new }
{
    for k in 0..list.len() / 3 {
        plan_text_entry::put_entry(text, list, k, s);
    }
}

// The line of the counts.
fn put_counts(text: &mut Text, t: plan_tally::Tally)
    requires { text.old.at + 65 < 2 ^ 64 }
    ensures { Wrote text.old (counts_text t) 65 text.new }
{
    text.put_all(b"= ");
    listing_numbers::put_decimal(text, u64::from(t.left));
    text.put_all(b" ");
    listing_numbers::put_decimal(text, u64::from(t.right));
    text.put_all(b" ");
    listing_numbers::put_decimal(text, u64::from(t.clash));
    text.put_all(b"\n");
}

// The text of a list of the entries of two tables, and of its tally. A byte past the lent bytes is only counted.
pub fn put_plan(text: &mut Text, list: &[u32], s: Sides, t: plan_tally::Tally)
    requires { (length list.now ≤ 36864) × (text.old.at + 2 ^ 36 < 2 ^ 64) }
    ensures { Wrote text.old (plan_bytes s.entry.left.now s.entry.right.now list.now t) (2 ^ 36) text.new }
{
    put_entries(text, list, s);
    put_counts(text, t);
}
