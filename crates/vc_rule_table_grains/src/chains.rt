//! Rows of a table with one key, chained in their order.

ghost use Rattle.std.specs.Prelude.{◌≡◌, ◌<◌, ◌≤◌, [], get_or, length, IsTrue, Some};
ghost use Rattle.vc_plan.specs.Domains.{grains_in};
ghost use Rattle.vc_plan.specs.TableRows.{columns_of};
ghost use Rattle.vc_rule_table_grains.specs.Keys.{row_key};
ghost use Rattle.vc_rule_table_grains.specs.Marking.{AreAt, AreChains, at_key, had_in, heads_in, linked, next_in};
ghost use Rattle.vc_rule_table_grains.specs.Marking.{put_at};

use crate::keys::{grain_key, row_key};
use vc_plan::Binding;
use vc_rule_table::cells::grain_count;
use vc_rule_yield::scratch::Marks;
use vc_value::{Domain, Listed, Value};

fn set_head(key: Option<usize>, row: usize, heads: &mut Listed<usize>)
    ensures { heads.new ≡ put_at key row heads.old }
{
    if let Some(key) = key {
        if key < heads.len() {
            heads.set(key, row);
        }
    }
}

fn clear_heads(domain: &Domain, count: usize, heads: &mut Listed<usize>)
    ensures { AreAt domain.now (length (grains_in (Some domain.now))) count heads.new }
{
    for grain in 0..grain_count(domain) {
        set_head(grain_key(domain, grain), count, heads);
    }
}

fn head_at(key: Option<usize>, heads: &[usize]) -> Option<usize>
    ensures { result ≡ at_key key heads.now }
{
    match key {
        Some(key) => match heads.get(key) {
            Some(head) => Some(*head),
            None => None,
        },
        None => None,
    }
}

fn link(at: usize, head: Option<usize>, next: &mut Listed<usize>)
    ensures { next.new ≡ linked at head next.old }
{
    if let Some(head) = head {
        if at < next.len() {
            next.set(at, head);
        }
    }
}

// The row of this key comes before those that are chained.
fn chain_row(key: Option<usize>, at: usize, heads: &mut Listed<usize>, next: &mut Listed<usize>)
    ensures heads { heads.new ≡ put_at key at heads.old }
    ensures next { next.new ≡ linked at (at_key key heads.old) next.old }
{
    let head = head_at(key, heads.as_slice());
    link(at, head, next);
    set_head(key, at, heads);
}

fn row_at(rows: &[Listed<Value>], at: usize) -> &[Value]
    ensures { result.now ≡ get_or rows.now at [] }
{
    match rows.get(at) {
        Some(row) => row.as_slice(),
        None => &[],
    }
}

fn chain_rows(
    domain: &Domain,
    columns: &[Binding],
    var: u32,
    rows: &[Listed<Value>],
    heads: &mut Listed<usize>,
    next: &mut Listed<usize>,
)
    requires { length rows.now ≤ length next.old }
    ensures { AreChains domain.now (columns_of var columns.now) rows.now heads.new next.new }
{
    clear_heads(domain, rows.len(), heads);
    let mut at = rows.len();
    while at > 0 {
        at -= 1;
        let key = row_key(domain, columns, var, row_at(rows, at));
        chain_row(key, at, heads, next);
    }
}

/// Chains the rows with one key from the last to the first, if there is room for that.
pub fn chain(
    domain: &Domain,
    columns: &[Binding],
    var: u32,
    rows: &[Listed<Value>],
    marks: &mut Option<Marks>,
) -> bool
    ensures chains { IsTrue result → AreChains domain.now (columns_of var columns.now) rows.now
        (heads_in marks.new) (next_in marks.new) }
    ensures had { had_in marks.new ≡ had_in marks.old }
{
    match marks {
        Some(marks) => {
            if marks.next.len() < rows.len() {
                return false;
            }
            chain_rows(
                domain,
                columns,
                var,
                rows,
                &mut marks.heads,
                &mut marks.next,
            );
            true
        }
        None => false,
    }
}

/// The first rows by keys.
pub fn heads_in(marks: &Option<Marks>) -> &[usize]
    ensures { result.now ≡ heads_in marks.now }
{
    match marks {
        Some(marks) => marks.heads.as_slice(),
        None => &[],
    }
}

/// The next row with the same key by rows.
pub fn next_in(marks: &Option<Marks>) -> &[usize]
    ensures { result.now ≡ next_in marks.now }
{
    match marks {
        Some(marks) => marks.next.as_slice(),
        None => &[],
    }
}
