ghost use Rattle.std.specs.Prelude.{◌≡◌};

use core::thread::Stack;
use std::snapshot::Snapshot;
use std::sync::Wait;
use std::thread;
use std::thread::{Promise, Threads};

/// The bytes of the new thread's stack: 1 GiB. The system gives memory to what is used of it alone.
const STACK: usize = 1 << 30;

/// Calls `first` in a new thread with a stack of 1 GiB, and `second` in this one. Where no such thread can be started, `first` is called
/// in this one, after `second`.
pub fn join_large<R: Threads + Wait, F: FnMut() -> A + Send, G: FnMut() -> B, A: Send + Drop, B>(
    rt: &R,
    first: &mut F,
    second: &mut G,
) -> (A, B)
    requires { F.pre first.old × G.pre second.old }
    ensures { F.step first.old result.0 first.new × G.step second.old result.1 second.new }
{
    let ((f, a), (g, b)) = run_both(rt, Lent { call: first }, Lent { call: second });
    take_back(f);
    take_back(g);
    (a, b)
}

// What is done once. Nothing is known of a `&mut` that a thread's closure captures, so it captures a value of a type parameter.
trait Task {
    type Output;

    ghost can_run: { Self → Type 0 };

    ghost run_gives: { Self → Self.Output → Type 0 };

    fn run(self) -> Self::Output
        requires { can_run self }
        ensures { run_gives self result };
}

#[derive(Drop)]
struct Lent<'a, F> {
    call: &'a mut F,
}

impl<'a, F: FnMut() -> A, A> Task for Lent<'a, F> {
    type Output = (&'a mut F, A);

    ghost can_run = { λ t. F.pre t.call.now };

    ghost run_gives = { λ t r. (r.0.ghost_name ≡ t.call.ghost_name) × F.step t.call.now r.1 r.0.now };

    fn run(self) -> (&'a mut F, A) {
        let Lent { call } = self;
        let a = call();
        (call, a)
    }
}

// The result is what the task gives.
#[derive(Drop)]
struct Given<S>(Snapshot<S>);

impl<S: Task<Output = A>, A> Promise<A> for Given<S> {
    ghost kept_by = { λ p r. S.run_gives p.0.value r };
}

// Runs the first one in a thread of its own, if one can be started.
fn run_both<
    R: Threads + Wait,
    S: Task<Output = A> + Send + Drop,
    T: Task<Output = B> + Drop,
    A: Send + Drop,
    B,
>(rt: &R, first: S, second: T) -> (A, B)
    requires { S.can_run first × T.can_run second }
    ensures { S.run_gives first result.0 × T.run_gives second result.1 }
{
    thread::scope(
        thread::scope_env(),
        rt,
        move |scope| -> (A, B)
            requires { S.can_run first × T.can_run second }
            ensures { S.run_gives first result.0 × T.run_gives second result.1 }
        {
            let promise = Given(Snapshot::of(&first));
            let started = Stack::new().stack_size(STACK).spawn_scoped_with(
                scope,
                promise,
                move || -> A
                    requires { S.can_run first }
                    ensures { S.run_gives first result }
                { first.run() },
            );
            match started {
                Ok(child) => {
                    let b = second.run();
                    (child.join(rt), b)
                }
                Err(refused) => {
                    let b = second.run();
                    ((refused.value)(), b)
                }
            }
        },
    )
}

// It does nothing. For the borrow checker this use of a returned reference ties it to the parameter that lent it.
fn take_back<T>(x: &mut T)
    ensures { x.new ≡ x.old }
{}
