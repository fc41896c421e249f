ghost use Rattle.std.specs.Prelude.{◌≡◌, ◌++◌, ℕ, Bool, true, List, Contains, length, ◌==◌};
ghost use Rattle.type_values.specs.declared.types.FlowType.{FlowType, out-FlowType};
ghost use Rattle.type_values.specs.declared.types.FlowType.TheOpen.{Union, Object, Tuple, Array, ReadArray, Function, Ref};
ghost use Rattle.type_values.specs.declared.types.FlowProp.{FlowProp};
ghost use Rattle.type_values.specs.declared.types.Param.{Param};
ghost use Rattle.alias_table.specs.Aliases.{Key, Row};
ghost use Rattle.alias_table.specs.Unfolding.{Unfolds};
ghost use Rattle.subtyping.specs.Rows.{Pair, is_free, ways, objects_fit, all_needs, both_ways, param_needs};
ghost use Rattle.subtyping.specs.Closed.{IsClosed, IsBelow, AreBelow};

/// A law: two closed sets together are closed. So the pairs of all closed sets are one relation.
pub fn closed_together()
    ensures { (named : Key → FlowType) (s t : List Pair) → IsClosed named s → IsClosed named t → IsClosed named (s ++ t) }
{}

/// A law: each type is below itself, whatever rows give the names.
pub fn below_itself()
    ensures { (rows : List Row) (named : Key → FlowType) → Unfolds rows named → (t : FlowType) → IsBelow named t t }
{}

/// A law: a type is below another one exactly where a row justifies it by pairs that are below.
pub fn below_by_rows()
    ensures all { (named : Key → FlowType) (p : Pair) (way : List Pair) → Contains (ways named p) way → AreBelow named way → IsBelow named p.0 p.1 }
    ensures only { (named : Key → FlowType) (a b : FlowType) → IsBelow named a b → (way : List Pair) × Contains (ways named (a, b)) way × AreBelow named way }
{}

/// A law: what needs nothing is below: `any` on either side, `empty` on the left, `mixed` on the
/// right, the same base or literal, and a literal and its base.
pub fn free_is_below()
    ensures { (named : Key → FlowType) (a b : FlowType) → is_free (out-FlowType a) (out-FlowType b) ≡ true → IsBelow named a b }
{}

/// A law: a name is below what its type is below, and above what its type is above.
pub fn name_is_its_type()
    ensures left { (named : Key → FlowType) (a b : FlowType) (home name : List ℕ) → out-FlowType a ≡ Ref home name → IsBelow named (named (home, name)) b → IsBelow named a b }
    ensures right { (named : Key → FlowType) (a b : FlowType) (home name : List ℕ) → out-FlowType b ≡ Ref home name → IsBelow named a (named (home, name)) → IsBelow named a b }
{}

/// A law: a union is below what each member is below, and above what is below a member.
pub fn union_is_its_members()
    ensures left { (named : Key → FlowType) (a b : FlowType) (all : List FlowType) → out-FlowType a ≡ Union all → ((x : FlowType) → Contains all x → IsBelow named x b) → IsBelow named a b }
    ensures right { (named : Key → FlowType) (a b : FlowType) (all : List FlowType) (y : FlowType) → out-FlowType b ≡ Union all → Contains all y → IsBelow named a y → IsBelow named a b }
{}

/// A law: an object is below another one whose properties it has, with what they need.
pub fn object_is_below()
    ensures { (named : Key → FlowType) (a b : FlowType) (closed_a closed_b : Bool) (ps qs : List FlowProp) → out-FlowType a ≡ Object closed_a ps → out-FlowType b ≡ Object closed_b qs → objects_fit closed_a ps closed_b qs ≡ true → AreBelow named (all_needs ps qs qs) → IsBelow named a b }
{}

/// A law: a tuple is below one of its length whose elements are below its own and above them.
pub fn tuple_is_below()
    ensures { (named : Key → FlowType) (a b : FlowType) (xs ys : List FlowType) → out-FlowType a ≡ Tuple xs → out-FlowType b ≡ Tuple ys → (length xs == length ys) ≡ true → AreBelow named (both_ways xs ys) → IsBelow named a b }
{}

/// A law: an array is below one whose elements are below its own and above them, and below one that
/// is only read where its elements are below; so is one that is only read.
pub fn array_is_below()
    ensures both { (named : Key → FlowType) (a b x y : FlowType) → out-FlowType a ≡ Array x → out-FlowType b ≡ Array y → IsBelow named x y → IsBelow named y x → IsBelow named a b }
    ensures read { (named : Key → FlowType) (a b x y : FlowType) → out-FlowType a ≡ Array x → out-FlowType b ≡ ReadArray y → IsBelow named x y → IsBelow named a b }
    ensures read_only { (named : Key → FlowType) (a b x y : FlowType) → out-FlowType a ≡ ReadArray x → out-FlowType b ≡ ReadArray y → IsBelow named x y → IsBelow named a b }
{}

/// A law: a function is below another one whose result is above its own, and whose parameters are
/// below its own, `void` where there is none.
pub fn function_is_below()
    ensures { (named : Key → FlowType) (a b r s : FlowType) (ps qs : List Param) → out-FlowType a ≡ Function ps r → out-FlowType b ≡ Function qs s → IsBelow named r s → AreBelow named (param_needs ps qs) → IsBelow named a b }
{}
