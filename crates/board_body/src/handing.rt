// Body (key): 17, 18, 22; the path's octets are handed back as a part of the lent store, a refusal hands back an empty part, and its
// number is had by a call of its own, and so is the path's form.
ghost use Rattle.std.specs.Prelude.{◌≡◌, ◌+◌, ◌*◌, ◌<◌, ◌≤◌, length, IfOk};
ghost use Rattle.answers.specs.Verdicts.{passed_of};
ghost use Rattle.board_record.specs.Sizes.{places, room};
ghost use Rattle.board_record.specs.Lent.{table_lent, board_lent};
ghost use Rattle.board_record.specs.Search.{place_of};
ghost use Rattle.board_rules.specs.Parts.{path_at};
ghost use Rattle.board_rules.specs.OnRecord.{body_number_on, body_on, body_form_on};

use answers::{Reason, Refusal};
use board_record::Lent;
use board_refusals::body_rules;
use board_rule17::{is_board, path_at, path_place, start_of};
use board_rules::Octets;

// Where the key's path lies, and its form.
pub fn path(b: Lent<'_>, store: &[u8], key: u64) -> Result<Octets, Refusal>
    ensures number { passed_of result ≡ body_number_on (board_lent b.entry) store.now key }
    ensures path { let t = table_lent b.entry in IfOk result (λ o. o ≡ path_at t (place_of t key)) }
    ensures inside { IfOk result (λ o. (o.place < places) × (room * o.place + o.length ≤ length store.now)) }
{
    if !is_board(b, store.len()) {
        return Err(Reason::NotABoard.into());
    }
    let at = body_rules(key, path_place(b, key))?;
    Ok(path_at(b, at))
}

// The number of a call for a body.
pub fn body_number(b: Lent<'_>, store: &[u8], key: u64) -> Result<(), Refusal>
    ensures number { passed_of result ≡ body_number_on (board_lent b.entry) store.now key }
{
    path(b, store, key)?;
    Ok(())
}

// The octets of the key's path.
pub fn body<'b>(b: Lent<'_>, store: &'b [u8], key: u64) -> &'b [u8]
    ensures body { result.now ≡ body_on (board_lent b.entry) store.now key }
{
    match path(b, store, key) {
        Ok(path) => {
            let from = start_of(path.place);
            &store[from..from + path.length]
        }
        Err(_) => &store[0..0],
    }
}

// The form of the key's path, by its setup type; 0 on refusal.
pub fn body_form(b: Lent<'_>, store: &[u8], key: u64) -> usize
    ensures form { result ≡ body_form_on (board_lent b.entry) store.now key }
{
    let handed = path(b, store, key);
    match handed {
        Ok(path) => path.form,
        Err(_) => 0,
    }
}
