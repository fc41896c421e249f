//! Laws of sets of faults. The definition, which puts each fault in its place, stands in `check_values`; the code here is the law that
//! says what that gives, as the contract of a call that does nothing.
#![tactic(auto)]

ghost use Rattle.fault_laws.specs.InOrder.{ListsInOrder};

/// Faults in order: the list rises strictly by where the faults begin, where they end, the names of their codes and their details; it
/// has exactly the faults that were given; and it is the only such list.
pub fn lists_in_order()
    ensures { ListsInOrder }
{}
