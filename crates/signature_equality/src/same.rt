ghost use Rattle.std.specs.Prelude.{◌≡◌, ◌↔◌, IsTrue};

use flow_values::{List, Path, Text};
use type_values::FlowType;

// Values of which it can be told whether two are equal.
pub(crate) trait Same {
    fn same(&self, other: &Self) -> bool
        ensures { IsTrue result ↔ (self.now ≡ other.now) };
}

impl Same for bool {
    fn same(&self, other: &bool) -> bool {
        *self == *other
    }
}

impl Same for Text {
    fn same(&self, other: &Text) -> bool {
        self.equals(other)
    }
}

impl Same for Path {
    fn same(&self, other: &Path) -> bool {
        self.equals(other)
    }
}

impl Same for FlowType {
    fn same(&self, other: &FlowType) -> bool {
        self.equals(other)
    }
}

impl<A: Same, B: Same> Same for (A, B) {
    fn same(&self, other: &(A, B)) -> bool {
        self.0.same(&other.0) && self.1.same(&other.1)
    }
}

impl<T: Same> Same for Option<T> {
    fn same(&self, other: &Option<T>) -> bool {
        match (self, other) {
            (Some(x), Some(y)) => x.same(y),
            (None, None) => true,
            _ => false,
        }
    }
}

impl<T: Same> Same for List<T> {
    fn same(&self, other: &List<T>) -> bool {
        same_all(self.as_slice(), other.as_slice())
    }
}

fn same_all<T: Same>(xs: &[T], ys: &[T]) -> bool
    ensures { IsTrue result ↔ (xs.now ≡ ys.now) }
{
    if xs.len() != ys.len() {
        return false;
    }
    for i in 0..xs.len() {
        if !xs[i].same(&ys[i]) {
            return false;
        }
    }
    true
}
