// The token table, row by row and against itself.
ghost use Rattle.std.specs.Prelude.{◌≡◌, ◌&&◌, ◌||◌, map, eqb, leb};
ghost use Rattle.lists.specs.Lists.{any_of};
ghost use Rattle.rules.specs.declared.Tables.{Tables};
ghost use Rattle.text.specs.Text.{holds, is_prefix};
ghost use Rattle.rules.specs.Scope.{cap_fits};
ghost use Rattle.rules.specs.Tables.{numbered};
ghost use Rattle.rules.specs.Sound.{is_given, sound_token, sound_tokens};
ghost use Rattle.rows.specs.Links.{token_number, token_parent};
ghost use Rattle.sound_rows.specs.Numbers.{volume_number};

use super::numbers::{number_again, numbers_differ, volume_numbers};
use rows::{cap_fits, depth_in, is_given, token_numbers, token_parents};
use rules::{Tables, Token};
use text::path::holds_prefix;

// The token is a root, or its parent is in the table.
fn parent_there(numbers: &[u64], parent: u64) -> bool
    ensures { result ≡ (eqb parent 0 || any_of (numbered parent) numbers.now) }
{
    if parent == 0 {
        return true;
    }
    number_again(numbers, parent, 0)
}

// What needs no row of a table: the number, the prefix, the cap and the window.
fn token_fits(k: Token, last: u32) -> bool
    ensures { result ≡ (is_given last k.no.0 && holds is_prefix k.scope.prefix && cap_fits k.scope.cap && leb k.scope.«from» k.scope.until) }
{
    if !is_given(last, k.no.0) {
        return false;
    }
    let scope = k.scope;
    if !holds_prefix(&scope.prefix) {
        return false;
    }
    let cap = scope.cap;
    if !cap_fits(cap) {
        return false;
    }
    scope.from <= scope.until
}

// These are the numbers of the volumes, the numbers of the tokens and the numbers of their parents.
#[tactic(auto, unfolding(rules::specs::Sound::sound_token))]
fn sound_token(
    k: Token,
    volumes: &[u64],
    numbers: &[u64; 32],
    parents: &[u64; 32],
    last: u32,
) -> bool
    ensures { (t : Tables) → volumes.now ≡ map volume_number t.volumes → numbers.now ≡ map token_number t.tokens → parents.now ≡ map token_parent t.tokens → t.last_token ≡ last → result ≡ sound_token t k }
{
    if k.no.0 == 0 {
        return true;
    }
    if !token_fits(k, last) {
        return false;
    }
    if !number_again(volumes, k.volume.0 as u64, 0) {
        return false;
    }
    let parent = k.parent.0 as u64;
    if !parent_there(numbers, parent) {
        return false;
    }
    let depth = depth_in(numbers, parents, parent);
    if 8 < depth {
        return false;
    }
    k.used <= 1152921504606846976
}

pub fn sound_tokens(t: Tables) -> bool
    ensures { result ≡ sound_tokens t }
{
    let rows = t.tokens;
    let volumes = t.volumes;
    let numbers = token_numbers(&rows);
    if !numbers_differ(&numbers) {
        return false;
    }
    let parents = token_parents(&rows);
    let places = volume_numbers(volumes);
    for i in 0..32 {
        let k = rows[i];
        if !sound_token(k, &places, &numbers, &parents, t.last_token) {
            return false;
        }
    }
    true
}
