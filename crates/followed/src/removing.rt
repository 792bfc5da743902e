// What the removal of a slot asks of the links beside it: by reading alone.
ghost use Rattle.std.specs.Prelude.{◌≡◌};
ghost use Rattle.rules.specs.Refusals.{passes, number_in};
ghost use Rattle.rules.specs.Remove.{apart_number, left_number, right_number, remove_number};

use refusals::astray;
use rules::steps::Beside;
use rules::{Header, Refusal};
use slots::words::{next, other_end, prev};

// A slot that would be a run of its own: the last run of the chain is t.
#[tactic(auto, unfolding(rules::specs::Remove::apart_number), using(rules::proofs::Chain::chain))]
fn check_apart(links: &[u32], header: Header, x: Beside) -> Result<(), Refusal>
    ensures { number_in result ≡ apart_number links.now header x }
{
    let t = prev(links, header.used, 0);
    if header.live == 0 {
        return Err(Refusal::Damaged);
    }
    if !x.before && !x.after && astray(links, header.used, t) {
        return Err(Refusal::Damaged);
    }
    Ok(())
}

// The run on the left, from f on.
#[tactic(auto, unfolding(rules::specs::Remove::left_number), using(rules::proofs::Chain::chain))]
fn check_left(links: &[u32], header: Header, x: Beside) -> Result<(), Refusal>
    ensures { number_in result ≡ left_number passes links.now header x }
{
    let f = other_end(links, header.used, x.left);
    if x.before && (astray(links, header.used, f) || x.left < f) {
        return Err(Refusal::Damaged);
    }
    Ok(())
}

// The run on the right, up to e: the runs after and before it in the chain are n and p.
#[tactic(auto, unfolding(rules::specs::Remove::right_number), using(rules::proofs::Chain::chain))]
fn check_right(links: &[u32], header: Header, x: Beside) -> Result<(), Refusal>
    ensures { number_in result ≡ right_number passes links.now header x }
{
    let used = header.used;
    let n = next(links, used, x.right);
    let p = prev(links, used, x.right);
    let e = other_end(links, used, x.right);
    if x.after && (astray(links, used, n) || astray(links, used, p)) {
        return Err(Refusal::Damaged);
    }
    if x.after && (astray(links, used, e) || e < x.right) {
        return Err(Refusal::Damaged);
    }
    Ok(())
}

#[tactic(auto, unfolding(rules::specs::Remove::remove_number, rules::specs::Remove::left_number, rules::specs::Remove::right_number), using(rules::proofs::Chain::chain))]
pub fn check_remove(links: &[u32], header: Header, x: Beside) -> Result<(), Refusal>
    ensures { number_in result ≡ remove_number links.now header x }
{
    check_apart(links, header, x)?;
    check_left(links, header, x)?;
    check_right(links, header, x)
}
