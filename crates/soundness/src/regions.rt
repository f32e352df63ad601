// The tests of the regions of lent tables, in three groups: unused room, rows, and what rows say of one another. For `fit`, whose lengths and head have passed.
// Book and keys come apart here, as lent: what holds them together, `tables::Sound`, is what the check gives.
ghost use Rattle.ids.specs.Decides.{Decides};
ghost use Rattle.tables.specs.Fit.{Blank};
ghost use Rattle.tables.specs.Tables.{tables, Sized};
ghost use Rattle.soundness.specs.Groups.{Ready, RowsFit, TiesFit};

use rows::compare::zero_from;
use rows::search::distinct;
use sound_keys::passes::{all_revoked_fit, holders_fit};
use sound_log::log::log_fits;
use sound_requests::passes::{all_asked_fit, all_decided_fit};
use sound_ties::lives::Parties;
use sound_ties::pending::waits;
use sound_ties::registrations::registered;
use sound_ties::used::Used;

// Unused room is zero.
pub fn blank(book: &[[u64; 6]], keys: &[[u8; 32]], texts: &[u8]) -> bool
    requires { Sized (tables book.now keys.now texts.now) }
    ensures { Decides result (Blank (tables book.now keys.now texts.now)) }
{
    let [_, k, made, m, logged, used] = book[0];
    zero_from(&book[1..65], k as usize)
        && zero_from(&book[65..321], m as usize)
        && zero_from(&book[321..577], m as usize)
        && zero_from(&book[577..833], made as usize)
        && zero_from(&book[833..1089], logged as usize)
        && zero_from(&keys[0..64], k as usize)
        && zero_from(&keys[64..320], m as usize)
        && zero_from(&keys[320..576], m as usize)
        && zero_from(texts, used as usize)
}

// Each row in use has its form, texts lie without gaps, and the log is that of the approvals.
pub fn rows_fit(book: &[[u64; 6]], keys: &[[u8; 32]]) -> bool
    requires { Ready book.now keys.now }
    ensures { Decides result (RowsFit book.now keys.now) }
{
    let [_, k, made, requests, logged, used] = book[0];
    let m = requests as usize;
    let asked = &book[65..321];
    let decided = &book[321..577];
    holders_fit(&book[1..65], k as usize, made, requests)
        && all_revoked_fit(&book[577..833], made as usize)
        && all_asked_fit(asked, m, made, used)
        && all_decided_fit(asked, decided, &keys[320..576], m, made)
        && log_fits(&book[833..1089][..logged as usize], &decided[..m])
}

// Keys are distinct, registrations in force or revoked, requests under the keys that made them, pending counts right.
pub fn ties_fit<'a>(book: &'a [[u64; 6]], keys: &'a [[u8; 32]]) -> bool
    requires { Ready book.now keys.now × RowsFit book.now keys.now }
    ensures { Decides result (TiesFit book.now keys.now) }
{
    let [_, k, made, m, ..] = book[0];
    let k = k as usize;
    let parties = Parties {
        holders: Used {
            rows: &book[1..65][..k],
        },
        held: &keys[0..64],
        asked: Used {
            rows: &book[65..321][..m as usize],
        },
        agents: &keys[64..320],
    };
    if !distinct(parties.held, k) {
        return false;
    }
    let mut place = [None; 256];
    if !registered(&parties.holders, &book[577..833], made as usize, &mut place) {
        return false;
    }
    parties.lived(&place) && waits(&parties.holders, &parties.asked, &book[321..577])
}
