// IROUTER: a low word and a high word for each interrupt from 32 on.
ghost use Rattle.std.specs.Prelude.{◌≡◌, ◌<◌};
ghost use Rattle.model.specs.Registers.{read_route, write_route};

use crate::views::has_id;
use model::View;
use model::layout::{ROUTES, State};
use model::values::ROUTE_BITS;
use state::put_route;

// Word `k` of IROUTER; a high word is zero.
#[tactic(auto, unfolding(model::specs::Registers::read_route))]
pub fn read_route(s: &State, view: View, k: usize) -> u32
    requires { k < 1976 }
    ensures { result ≡ read_route s.now view k }
{
    if k % 2 == 0 && has_id(s, view, 32 + k / 2) {
        s[ROUTES + k / 2]
    } else {
        0
    }
}

// Writes word `k` of IROUTER: bits 23-0 of a low word are kept.
#[tactic(auto, unfolding(model::specs::Registers::write_route))]
pub fn write_route(s: &mut State, view: View, k: usize, x: u32)
    requires { k < 1976 }
    ensures { s.new ≡ write_route s.old view k x }
{
    let id = 32 + k / 2;
    if k % 2 == 0 && has_id(s, view, id) {
        put_route(s, id, x & ROUTE_BITS);
    }
}
