// A ledger made for a list of orders.
ghost use Rattle.std.specs.Prelude.{◌≡◌, ◌≤◌, ◌++◌, map, length, drop};
ghost use Rattle.orders.specs.Meaning.{meaning};
ghost use Rattle.rules.specs.Served.{served, answers_of};
ghost use Rattle.ledger.specs.Parts.{book_of, figures};
ghost use Rattle.ledger.specs.Serves.{serve_answer, Through, Serves};

use super::Ledger;
use super::fault::ServeFault;
use super::making::check;
use super::reply::answer;
use costs::policy::CostPolicy;
use orders::answer::Answer;
use orders::order::Order;
use pool::allocator::Allocator;

/// What a caller gets back whose orders are not served.
#[derive(Drop)]
pub struct Unserved<A, P> {
    pub fault: ServeFault,
    pub pool: A,
    pub policy: P,
}

// Whether a ledger can be made, and so many orders have places for their answers.
fn check_serving<A: Allocator>(
    pool: &A,
    slop: u16,
    orders: usize,
    places: usize,
) -> Result<(), ServeFault>
    ensures { result ≡ serve_answer slop (A.Allocator.units pool.now) orders places }
{
    check(pool, slop)?;
    if orders > places {
        return Err(ServeFault::FewPlaces);
    }
    Ok(())
}

// Obeys the orders one by one, and puts each answer into its place.
fn obey_all<A: Allocator, P: CostPolicy>(
    ledger: &mut Ledger<A, P>,
    orders: &[Order<'_>],
    answers: &mut [Answer],
)
    requires { length orders.now ≤ length answers.old }
    ensures through { Through ledger.old ledger.new (served (figures ledger.old) (book_of ledger.old) (map meaning orders.now)) }
    ensures answered { answers.new ≡ answers_of (served (figures ledger.old) (book_of ledger.old) (map meaning orders.now)) ++ drop (length orders.now) answers.old }
{
    // zipped with `answers.iter_mut()`, a proof would know nothing of the answers afterwards
    for (i, order) in orders.iter().enumerate() {
        answers[i] = answer(ledger.obey(*order));
    }
}

/// Makes a ledger and obeys the orders one by one; the first answers are theirs, and places past them are kept.
/// Where no ledger can be made, or places are too few, nothing is done, and the allocator and the policy come back.
pub fn serve<A: Allocator, P: CostPolicy>(
    pool: A,
    policy: P,
    slop: u16,
    orders: &[Order<'_>],
    answers: &mut [Answer],
) -> Result<Ledger<A, P>, Unserved<A, P>>
    ensures { Serves pool policy slop (map meaning orders.now) answers.old answers.new result }
{
    if let Err(fault) = check_serving(&pool, slop, orders.len(), answers.len()) {
        return Err(Unserved {
            fault,
            pool,
            policy,
        });
    }
    let mut ledger = Ledger::make(pool, policy, slop);
    obey_all(&mut ledger, orders, answers);
    Ok(ledger)
}
