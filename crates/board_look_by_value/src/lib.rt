// The board's calls that only look at it, with the record by value (document 01, "The board"): body hands back a part of the lent store,
// and its form by a call of its own; next hands out a change, moved says if a key of a range changed. Each lends the record's arrays
// to the call of board_body or board_look.
#![tactic(auto)]

mod path;

ghost use Rattle.std.specs.Prelude.{◌≡◌};
ghost use Rattle.answers.specs.Verdicts.{passed_of};
ghost use Rattle.board_rules.specs.Handed.{handed_of};
ghost use Rattle.board_rules.specs.Moved.{told_of};
ghost use Rattle.board_look_by_value.specs.ByValue.{body_number_by_value, body_form_by_value, next_by_value, moved_by_value, fresh_mark_on};

use answers::Refusal;
use board_record::Board;
use board_rules::{Handed, Mark};
pub use path::body;

// The number of Body (key).
pub fn body_number(b: Board, store: &[u8], key: u64) -> Result<(), Refusal>
    ensures number { passed_of result ≡ body_number_by_value b store.now key }
{
    board_body::body_number(b.lent(), store, key)
}

// The form of the path of Body (key), by its setup type; 0 on refusal.
pub fn body_form(b: Board, store: &[u8], key: u64) -> usize
    ensures form { result ≡ body_form_by_value b store.now key }
{
    board_body::body_form(b.lent(), store, key)
}

// Next (mark s, w).
pub fn next(b: Board, store: &[u8], s: u64, w: u64) -> Result<Handed, Refusal>
    ensures next { handed_of result ≡ next_by_value b store.now s w }
{
    board_look::next(b.lent(), store, s, w)
}

// Moved (keys from `from` to `to`, version v).
pub fn moved(b: Board, store: &[u8], from: u64, to: u64, v: u64) -> Result<bool, Refusal>
    ensures moved { told_of result ≡ moved_by_value b store.now from to v }
{
    board_look::moved(b.lent(), store, from, to, v)
}

// A fresh mark is the board's version for s and 0 for w, with the follower empty. It has no number: it reads the version
// only, and next answers 17 to a mark of a record that is no board.
pub fn fresh_mark(b: Board) -> Mark
    ensures fresh { result ≡ fresh_mark_on b }
{
    Mark { s: b.version, w: 0 }
}
