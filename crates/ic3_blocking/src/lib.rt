//! What IC3 excludes from its frames (Bradley 2011; Een, Mishchenko, Brayton 2011): states that lead to the bad literal, by clauses.
//!
//! `FrameSolver` has a circuit and the clauses of its frames (`ic3_frames`) in a solver, each under the guard of its level, and
//! asks it about one step from a frame (`ic3_step`). Every call keeps `IsSound`: the clauses are those of the frames, and the
//! frames keep their laws.
//!
//! A time of the last frame at which the bad literal is true stands for all states that lead on as
//! its own does: those that agree with it in the latches on which the gates' values rest (`cones`).
//! They are blocked: by a clause that excludes them and holds after each step from the frame before,
//! or else by blocking first a predecessor of one of them. What is still to be blocked is a run, once
//! it has an initial state: each state of a lifted cube is a predecessor of the cube behind, by
//! contract.
//!
//! A query costs its clause, its guards and the work of the solver. A clause that could not be propagated
//! is tried again only when the state that showed it has left the frame, and so is a new one that did not
//! hold in the next frame. The literals of the clause that excluded the same states from the frame before are not tried when a
//! new clause is made shorter. The circuit is loaded again only after a hundred queries and propagated clauses, or a thousand
//! where it is large, and where the levels that have guards are used up, which are twice as many each time.
#![tactic(auto)]

mod adding;
mod bad;
mod blocking;
mod candidates;
mod frame_solver;
mod inductive;
mod lift;
mod obligation;
mod obligation_queue;
mod order;
mod picked;
mod proof_obligations;
mod reduction;
mod reset;
mod run;

pub use bad::AtBad;
pub use frame_solver::FrameSolver;
pub use lift::Lifting;
