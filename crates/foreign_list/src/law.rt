//! The law of the list.
ghost use Rattle.foreign_list.specs.Laws.{EachShowsCore, EachStepIsOneEvent};

use foreign_core::law_of_histories;

/// The law of the list, over all interleavings of steps.
///
/// The kit's table keeps the list's rule between any two steps, so the table is always one that keeps it. Whatever the table is, it
/// shows tickets of the core: those on the list are the chain from the head, each ticket's state is that of its place, each is in one
/// state, and possible events led there from all idle. Each kind of step is one event of the core, but for the owner's walk, which
/// is none, and for its look at the head: one that finds no ticket takes the list, which is empty, and another one is none. So
/// [`law_of_histories`] holds of every run.
///
/// # Examples
/// A caller cites `law_of_the_list();` for what holds of the list whatever other threads do.
pub fn law_of_the_list()
    ensures shows { EachShowsCore }
    ensures events { EachStepIsOneEvent }
{
    law_of_histories();
}
