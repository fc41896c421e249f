// The forms that are open.
ghost use Rattle.std.specs.Prelude.{◌≡◌, map};
ghost use Rattle.code_state.specs.Places.{top, within, befores, entered as frame_entered, entered_body as body_entered, nearest_operator as operator_nearest, nearest_tail as tail_nearest, takes_arrow as may_take_arrow};

use crate::frames::{BodyFrame, Entry, Frame, Nearest, OperatorFrame, Place, TailFrame, Wrap};
use crate::items::ItemMode;
use crate::modes::Turn;
use code_tree::{Arm, PrefixMark};
use flow_values::{List, NoMemory};
use js_tree::{Item, ItemForm};
use std::alloc::Global;

/// What stands below all open forms: nothing, an item at a place, or `export default` at a place and an expression.
#[derive(Clone, Copy, Debug, PartialEq, Eq)]
pub enum Bottom {
    Nothing,
    Item(usize, Wrap),
    Default(usize),
}

/// The items so far, what stands below all open forms, those, the innermost at the end, and the place inside of them all.
#[derive(Drop)]
pub struct Stack {
    pub items: List<Item>,
    pub bottom: Bottom,
    pub entries: Vec<Entry>,
    pub place: Place,
    ghost inside: { place ≡ within top entries.items },
    ghost outside: { map (λ e. e.before) entries.items ≡ befores top entries.items },
}

/// The innermost open form, taken.
#[derive(Drop)]
pub enum Top {
    Body(BodyFrame),
    /// A form that waits for an expression.
    Other,
    /// None is open.
    Bottom,
}

/// Outside of all forms.
const TOP: Place = Place {
    in_function: false,
    in_loop: false,
    nearest: Nearest::Other,
};

/// What an operator is to what stands in it.
fn nearest_operator(form: &OperatorFrame) -> Nearest
    ensures { result ≡ operator_nearest form.now }
{
    match form {
        OperatorFrame::Prefix(..) => Nearest::Prefix,
        OperatorFrame::Chain(..) => Nearest::Chain,
    }
}

/// What another form that ends with an expression is to what stands in it.
fn nearest_tail(form: &TailFrame) -> Nearest
    ensures { result ≡ tail_nearest form.now }
{
    match form {
        TailFrame::Last(..) => Nearest::Last,
        TailFrame::Arrow(..) => Nearest::Other,
    }
}

/// The place inside a form of statements that stands at this place.
fn entered_body(place: Place, form: &BodyFrame) -> Place
    ensures { result ≡ body_entered place form.now }
{
    match form {
        BodyFrame::Function(..) | BodyFrame::Arrow(..) => {
            Place {
                in_function: true,
                in_loop: false,
                nearest: Nearest::Other,
            }
        }
        BodyFrame::Loop(..) => {
            Place {
                in_function: place.in_function,
                in_loop: true,
                nearest: Nearest::Other,
            }
        }
        BodyFrame::Block(..) | BodyFrame::If(..) | BodyFrame::Else(..) => {
            Place {
                in_function: place.in_function,
                in_loop: place.in_loop,
                nearest: Nearest::Other,
            }
        }
    }
}

/// The place inside a form that stands at this place.
fn entered(place: Place, frame: &Frame) -> Place
    ensures { result ≡ frame_entered place frame.now }
{
    let nearest = match frame {
        Frame::Body(form) => return entered_body(place, form),
        Frame::Operator(form) => nearest_operator(form),
        Frame::Tail(form) => nearest_tail(form),
        Frame::Inner(_) | Frame::Value(_) => Nearest::Other,
    };
    Place {
        in_function: place.in_function,
        in_loop: place.in_loop,
        nearest,
    }
}

/// Whether an arrow may stand in this form.
fn takes_arrow(nearest: Nearest) -> bool
    ensures { result ≡ may_take_arrow nearest }
{
    match nearest {
        Nearest::Prefix | Nearest::Chain => false,
        Nearest::Last | Nearest::Other => true,
    }
}

impl Stack {
    ghost use Rattle.code_state.specs.declared.frames.Nearest.TheVariants.{Prefix as nearest_prefix, Last as nearest_last};
    ghost use Rattle.std.specs.Prelude.{◌∷◌, [], ◌<◌, true, false, OnOk, IfOk, IfSome, MatchOption};
    ghost use Rattle.js_tree.specs.View.{items_view, item_form_view};
    ghost use Rattle.js_grammar.specs.Items.{no_item, more_item, item as item_tree};
    ghost use Rattle.code_law.specs.Frames.{context, within_function, within_loop, in_prefix, in_last};
    ghost use Rattle.code_tree.specs.Flat.{prefixes_view};
    ghost use Rattle.code_tree.specs.View.{arms_view};
    ghost use Rattle.code_law.specs.Expressions.{may_arrow};
    ghost use Rattle.code_law.specs.Bodies.{give_item};
    ghost use Rattle.code_state.specs.Forms.{frame_view, operator_frame_view};
    ghost use Rattle.code_state.specs.Stack.{stack_view, bottom_stack, items_before, lowest, depth, is_open, IsTaken, nearest_of, is_prefix, is_last};
    ghost use Rattle.code_state.specs.Turns.{turn_view};

    /// No item, and nothing open.
    #[tactic(auto, using(crate::proofs::OpenForms::stacks, crate::proofs::Pushes::nothings), unfolding(crate::specs::Stack::stack_view))]
    pub fn new(alloc: Global) -> Stack
        ensures items { items_before result ≡ no_item }
        ensures open_forms { stack_view result ≡ [] }
    {
        Stack {
            items: List::new(alloc),
            bottom: Bottom::Nothing,
            entries: Vec::new(alloc),
            place: TOP,
        }
    }

    /// Opens a form.
    ///
    /// # Errors
    ///
    /// `NoMemory` where memory is refused.
    #[tactic(auto, using(crate::proofs::OpenForms::stacks), unfolding(crate::specs::Stack::stack_view))]
    pub fn push(&mut self, frame: Frame) -> Result<(), NoMemory>
        ensures pushed { OnOk result (stack_view self.new ≡ frame_view frame ∷ stack_view self.old) }
        ensures items { items_before self.new ≡ items_before self.old }
    {
        let before = self.place;
        let place = entered(before, &frame);
        self.entries.push(Entry { frame, before })?;
        self.place = place;
        Ok(())
    }

    /// Takes the innermost open form, or answers `None` where none is open.
    #[tactic(auto, using(crate::proofs::OpenForms::stacks), unfolding(crate::specs::Stack::stack_view))]
    pub fn pop(&mut self) -> Option<Frame>
        ensures popped { MatchOption result (stack_view self.old ≡ lowest self.old) (λ f. stack_view self.old ≡ frame_view f ∷ stack_view self.new) }
        ensures items { items_before self.new ≡ items_before self.old }
        ensures bottom { self.new.bottom ≡ self.old.bottom }
        ensures smaller { IfSome result (λ f. depth self.new < depth self.old) }
    {
        match self.entries.pop() {
            Some(Entry { frame, before }) => {
                self.place = before;
                Some(frame)
            }
            None => None,
        }
    }

    /// Takes the innermost open form, where one is open.
    #[tactic(auto, using(crate::proofs::OpenForms::taken))]
    pub fn take_body(&mut self) -> Top
        ensures taken { IsTaken (stack_view self.old) (stack_view self.new) result }
        ensures items { items_before self.new ≡ items_before self.old }
        ensures bottom { self.new.bottom ≡ self.old.bottom }
    {
        match self.pop() {
            Some(Frame::Body(form)) => Top::Body(form),
            Some(Frame::Operator(_) | Frame::Tail(_) | Frame::Inner(_) | Frame::Value(_)) => {
                Top::Other
            }
            None => Top::Bottom,
        }
    }

    /// What stands below all open forms, where none is open.
    #[tactic(auto, using(crate::proofs::OpenForms::bottoms), unfolding(crate::specs::Stack::stack_view))]
    pub fn at_bottom(&self) -> Option<Bottom>
        ensures { MatchOption result (is_open (stack_view self.now) ≡ true) (λ b. stack_view self.now ≡ bottom_stack (items_before self.now) b) }
    {
        if self.entries.is_empty() {
            Some(self.bottom)
        } else {
            None
        }
    }

    /// Whether a statement here stands inside a function.
    #[tactic(auto, using(crate::proofs::OpenForms::looks))]
    pub fn in_function(&self) -> bool
        ensures { result ≡ within_function (context (stack_view self.now)) }
    {
        self.place.in_function
    }

    /// Whether a statement here stands inside a loop of the same function.
    #[tactic(auto, using(crate::proofs::OpenForms::looks))]
    pub fn in_loop(&self) -> bool
        ensures { result ≡ within_loop (context (stack_view self.now)) }
    {
        self.place.in_loop
    }

    /// Whether an arrow may stand here.
    #[tactic(auto, using(crate::proofs::OpenForms::looks))]
    pub fn takes_arrow(&self) -> bool
        ensures { result ≡ may_arrow (stack_view self.now) }
    {
        takes_arrow(self.place.nearest)
    }

    /// Takes the innermost open form where it is an operator.
    #[tactic(auto, using(crate::proofs::OpenForms::no_operator))]
    pub fn pop_operator(&mut self) -> Option<OperatorFrame>
        ensures popped { MatchOption result ((may_arrow (stack_view self.old) ≡ true) × (self.new ≡ self.old)) (λ f. stack_view self.old ≡ operator_frame_view f ∷ stack_view self.new) }
        ensures items { items_before self.new ≡ items_before self.old }
        ensures bottom { self.new.bottom ≡ self.old.bottom }
        ensures smaller { IfSome result (λ f. depth self.new < depth self.old) }
    {
        if self.takes_arrow() {
            return None;
        }
        match self.pop() {
            Some(Frame::Operator(form)) => Some(form),
            Some(Frame::Tail(_)) => unreachable!(),
            Some(Frame::Inner(_)) => unreachable!(),
            Some(Frame::Value(_)) => unreachable!(),
            Some(Frame::Body(_)) => unreachable!(),
            None => unreachable!(),
        }
    }

    /// Takes the marks before an expression that are the innermost open form.
    #[tactic(auto, using(crate::proofs::OpenForms::no_prefix))]
    fn take_prefix(&mut self) -> (usize, List<PrefixMark>)
        requires { nearest_of (stack_view self.old) ≡ nearest_prefix }
        ensures popped { stack_view self.old ≡ in_prefix result.0 (prefixes_view result.1) ∷ stack_view self.new }
        ensures items { items_before self.new ≡ items_before self.old }
        ensures bottom { self.new.bottom ≡ self.old.bottom }
    {
        match self.pop() {
            Some(Frame::Operator(OperatorFrame::Prefix(first, marks))) => (first, marks),
            Some(Frame::Operator(OperatorFrame::Chain(..))) => unreachable!(),
            Some(Frame::Tail(_)) => unreachable!(),
            Some(Frame::Inner(_)) => unreachable!(),
            Some(Frame::Value(_)) => unreachable!(),
            Some(Frame::Body(_)) => unreachable!(),
            None => unreachable!(),
        }
    }

    /// Takes the innermost open form where it is marks before an expression: where they begin, and the marks.
    pub fn pop_prefix(&mut self) -> Option<(usize, List<PrefixMark>)>
        ensures popped { MatchOption result ((is_prefix (nearest_of (stack_view self.old)) ≡ false) × (self.new ≡ self.old)) (λ f. stack_view self.old ≡ in_prefix f.0 (prefixes_view f.1) ∷ stack_view self.new) }
        ensures items { items_before self.new ≡ items_before self.old }
        ensures bottom { self.new.bottom ≡ self.old.bottom }
    {
        match self.nearest() {
            Nearest::Prefix => Some(self.take_prefix()),
            Nearest::Chain | Nearest::Last | Nearest::Other => None,
        }
    }

    /// Takes the arms of a conditional that are the innermost open form.
    #[tactic(auto, using(crate::proofs::OpenForms::no_last))]
    fn take_arms(&mut self) -> (usize, List<Arm>)
        requires { nearest_of (stack_view self.old) ≡ nearest_last }
        ensures popped { stack_view self.old ≡ in_last result.0 (arms_view result.1) ∷ stack_view self.new }
        ensures items { items_before self.new ≡ items_before self.old }
        ensures bottom { self.new.bottom ≡ self.old.bottom }
    {
        match self.pop() {
            Some(Frame::Tail(TailFrame::Last(first, arms))) => (first, arms),
            Some(Frame::Tail(TailFrame::Arrow(_))) => unreachable!(),
            Some(Frame::Operator(_)) => unreachable!(),
            Some(Frame::Inner(_)) => unreachable!(),
            Some(Frame::Value(_)) => unreachable!(),
            Some(Frame::Body(_)) => unreachable!(),
            None => unreachable!(),
        }
    }

    /// Takes the innermost open form where it is the arms of a conditional: where it begins, and the arms.
    pub fn pop_arms(&mut self) -> Option<(usize, List<Arm>)>
        ensures popped { MatchOption result ((is_last (nearest_of (stack_view self.old)) ≡ false) × (self.new ≡ self.old)) (λ f. stack_view self.old ≡ in_last f.0 (arms_view f.1) ∷ stack_view self.new) }
        ensures items { items_before self.new ≡ items_before self.old }
        ensures bottom { self.new.bottom ≡ self.old.bottom }
    {
        match self.nearest() {
            Nearest::Last => Some(self.take_arms()),
            Nearest::Prefix | Nearest::Chain | Nearest::Other => None,
        }
    }

    /// What the innermost open form is.
    #[tactic(auto, using(crate::proofs::OpenForms::looks))]
    pub fn nearest(&self) -> Nearest
        ensures { result ≡ nearest_of (stack_view self.now) }
    {
        self.place.nearest
    }

    /// Closes all forms, and puts this below those to come.
    #[tactic(auto, using(crate::proofs::OpenForms::stacks), unfolding(crate::specs::Stack::stack_view))]
    pub fn begin(&mut self, bottom: Bottom)
        ensures open_forms { stack_view self.new ≡ bottom_stack (items_before self.old) bottom }
        ensures items { items_before self.new ≡ items_before self.old }
    {
        self.entries.clear();
        self.bottom = bottom;
        self.place = TOP;
    }

    /// An item of this form is whole: a further one may begin.
    ///
    /// # Errors
    ///
    /// `NoMemory` where memory is refused.
    #[tactic(auto, using(crate::proofs::Pushes::pushes))]
    pub fn give_item(&mut self, first: usize, end: usize, form: ItemForm) -> Result<Turn, NoMemory>
        ensures { IfOk result (λ turn. turn_view self.new turn ≡ give_item end [] first (items_before self.old) (item_form_view form)) }
    {
        self.items.push(Item { first, end, form })?;
        Ok(Turn::Item(ItemMode::Start))
    }
}
