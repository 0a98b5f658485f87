//! What all faults stand on: which of several faults a call answers, and that memory was refused ([`NoMemory`]).
//!
//! A definition lists the faults of an input in order, each with a test of its condition on the whole input. The
//! reported fault is the first whose test holds. This crate defines these words, and proves what they mean.
#![tactic(auto)]

mod memory;

ghost use Rattle.std.specs.Prelude.{◌≡◌, Bool, List, Some, None, ◌↔◌};
ghost use Rattle.pb_faults.specs.FirstFault.{first_fault, IsFirst, NoneHolds};

pub use memory::NoMemory;

/// A fault is the first of the list exactly where its test holds and no test before it does.
pub fn first_fault_is_first<F>()
    ensures found { (tests : List (Bool × F)) (fault : F) → first_fault tests ≡ Some fault
        → IsFirst tests fault }
    ensures only { (tests : List (Bool × F)) (fault : F) → IsFirst tests fault
        → first_fault tests ≡ Some fault }
{}

/// There is no first fault exactly where no test holds.
pub fn no_fault_means_none_holds<F>()
    ensures found { (tests : List (Bool × F)) → first_fault tests ≡ None → NoneHolds tests }
    ensures only { (tests : List (Bool × F)) → NoneHolds tests → first_fault tests ≡ None }
{}
