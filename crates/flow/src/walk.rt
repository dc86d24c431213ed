//! A history of calls, and what map owes after it: computed from the calls' arguments alone.

ghost use Rattle.cells.specs.Netlists.{netlist_of};
ghost use Rattle.fitter.specs.Calls.{book_of_calls};
ghost use Rattle.fitter.specs.Mapping.{AnswersFor};
ghost use Rattle.flow.specs.Walk.{Tells, walked};
ghost use Rattle.std.specs.Prelude.{length, IfOk};

use cells::cover::Cover;
use drawing::node::Pair;
use drawing::refusal::Refusal;
use family::Family;
use fitter::job::Job;

/// Makes all seven calls on a job of its own, whatever they answer, and maps at the end.
pub fn walk<F: Family>(
    family: &F,
    text: &[u8],
    cover: &mut Cover,
    arrivals: &mut [F::Arrival],
) -> Result<(usize, usize), Refusal>
    ensures answers { AnswersFor (F.delay family.now) (book_of_calls (walked (F.delay family.now).width (length arrivals.old) text.now)) (length arrivals.old) result (netlist_of cover.new) }
    ensures tells { IfOk result (λ p. Tells (F.delay family.now) (walked (F.delay family.now).width (length arrivals.old) text.now) p (netlist_of cover.new) arrivals.new) }
{
    let mut job = Job::new();
    let _ = job.input();
    let _ = job.input();
    let _ = job.gate(Pair { left: 2, right: 4 });
    let _ = job.output(7);
    let _ = job.width(3);
    let _ = job.map(family, cover, arrivals);
    let _ = job.retie(3, Pair { left: 3, right: 5 });
    let _ = job.load(text);
    job.map(family, cover, arrivals)
}
