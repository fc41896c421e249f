//! The checker of a module.
#![tactic(auto, using(crate::proofs::Reading::stays_same, check_items::proofs::Envs::env_noted), unfolding(crate::specs::View::checker_env))]

ghost use Rattle.std.specs.Prelude.{◌≡◌, List, Some, None, OnOk, IfOk};
ghost use Rattle.std.specs.Option.{option_copied, option_map};
ghost use Rattle.flow_values.specs.declared.span.Span.{Span};
ghost use Rattle.js_grammar.specs.Items as g;
ghost use Rattle.code_tree.specs.View.{expr_view};
ghost use Rattle.type_tree.specs.View.{type_view};
ghost use Rattle.js_tree.specs.View.{item_view, module_view};
ghost use Rattle.typing.specs.States.{after, now_of, with_now};
ghost use Rattle.typing.specs.TypeFaults.{annotated, annotation_read};
ghost use Rattle.typing.specs.Typing.{read};
ghost use Rattle.module_errors.specs.Program.{Program};
ghost use Rattle.module_errors.specs.Items.{noted_env, read_item};
ghost use Rattle.module_errors.specs.Errors.{no_notes, seen_type};
ghost use Rattle.errors_by_reach.specs.Law.{whole};
ghost use Rattle.check_job.specs.Jobs.{source_of, IsWhole};

use crate::around::Around;
use binders::annotated;
use check_items::check_expr::read;
use check_items::check_moves::State;
use check_items::{Module as Reading, read_item};
use check_job::CheckJob;
use check_values::Fault;
use check_world::Notes;
use code_tree::Expr;
use flow_values::{NoMemory, Span};
use js_tree::{Item, Module};
use source_front::ParseTree;
use std::alloc::Global;
use type_reads::read_annotation;
use type_tree::TypeTree;
use type_values::FlowType;

/// The checker of a module: it reads expressions and items, keeps the facts between them, and notes
/// their faults.
#[derive(Drop)]
pub struct Checker<'j> {
    around: Around<'j>,
    state: State,
}

impl<'j> Checker<'j> {
    ghost use Rattle.check_module.specs.View.{checker_world, checker_env, IsFor, StaysOf, Opens, Names};

    /// The checker of a job, whose parse has a tree: with the names of the module, no facts and no
    /// faults. Those of the names and of the exports themselves are found where the whole module is read.
    ///
    /// # Errors
    ///
    /// `NoMemory` where memory is refused.
    #[tactic(auto, using(crate::proofs::JobSources::opens_whole, crate::proofs::JobSources::never_broken))]
    pub fn open(alloc: Global, job: &'j CheckJob) -> Result<Checker<'j>, NoMemory>
        requires { IsWhole (source_of job.now) }
        ensures { IfOk result (λ c. (m : g.Module) (spans : List Span) → source_of job.now ≡ whole m spans → Opens job.now m spans None c) }
    {
        let parse = job.parse.get();
        match &parse.tree {
            ParseTree::Tree { module, spans } => {
                let mut checker = Checker::named(alloc, job, module, spans.as_slice(), None)?;
                checker.forget_faults();
                Ok(checker)
            }
            ParseTree::Broken(_) => unreachable!(),
        }
    }

    // Forgets the faults so far, before the first item.
    #[tactic(auto, unfolding(crate::specs::View::checker_env, crate::specs::Handed::around, crate::specs::Handed::now))]
    fn forget_faults(&mut self)
        ensures env { checker_env self.new ≡ record (checker_env self.old) { notes = no_notes } }
        ensures around { self.new.around ≡ self.old.around }
    {
        self.state.notes = Notes::new(self.around.alloc);
    }

    /// By the module and the spans of the job's tree, and by the place that is watched: with the names of
    /// the module, no facts, and the faults of its names and its exports.
    ///
    /// # Errors
    ///
    /// `NoMemory` where memory is refused.
    pub(crate) fn named(
        alloc: Global,
        job: &'j CheckJob,
        module: &Module,
        spans: &'j [Span],
        watch: Option<u32>,
    ) -> Result<Checker<'j>, NoMemory>
        ensures { IfOk result (λ c. Names job.now (module_view «module».now) spans.now watch c) }
    {
        let around = Around::of(alloc, job, module, spans, watch)?;
        let state = around.start(module.items.as_slice())?;
        Ok(Checker { around, state })
    }

    // Reads an expression of the module, plainly or against a type.
    #[tactic(auto, using(crate::proofs::Reading::stays_same, check_items::proofs::Envs::env_read, crate::proofs::Reading::type_read), unfolding(crate::specs::View::checker_env))]
    fn read_value(&mut self, e: &Expr, want: Option<&FlowType>) -> Result<FlowType, NoMemory>
        ensures ty { IfOk result (λ ty. ty ≡ (read (checker_world self.old) (expr_view e.now) (checker_env self.old).scope (option_copied want.entry) (now_of (checker_env self.old))).ty) }
        ensures env { OnOk result (checker_env self.new ≡ with_now (after (read (checker_world self.old) (expr_view e.now) (checker_env self.old).scope (option_copied want.entry) (now_of (checker_env self.old)))) (checker_env self.old)) }
        ensures stays { StaysOf self.old self.new }
    {
        let world = self.around.world();
        let value = read(&world, &mut self.state, e, want)?;
        let ty = self.state.after(value)?;
        Ok(ty)
    }

    /// Reads an expression of the module against a type.
    ///
    /// # Errors
    ///
    /// `NoMemory` where memory is refused. The checker may only be dropped then.
    pub fn check_against(&mut self, e: &Expr, t: &FlowType) -> Result<FlowType, NoMemory>
        ensures ty { IfOk result (λ ty. ty ≡ (read (checker_world self.old) (expr_view e.now) (checker_env self.old).scope (Some t.now) (now_of (checker_env self.old))).ty) }
        ensures env { OnOk result (checker_env self.new ≡ with_now (after (read (checker_world self.old) (expr_view e.now) (checker_env self.old).scope (Some t.now) (now_of (checker_env self.old)))) (checker_env self.old)) }
        ensures stays { StaysOf self.old self.new }
    {
        self.read_value(e, Some(t))
    }

    /// Reads an expression of the module.
    ///
    /// # Errors
    ///
    /// `NoMemory` where memory is refused. The checker may only be dropped then.
    pub fn type_of(&mut self, e: &Expr) -> Result<FlowType, NoMemory>
        ensures ty { IfOk result (λ ty. ty ≡ (read (checker_world self.old) (expr_view e.now) (checker_env self.old).scope None (now_of (checker_env self.old))).ty) }
        ensures env { OnOk result (checker_env self.new ≡ with_now (after (read (checker_world self.old) (expr_view e.now) (checker_env self.old).scope None (now_of (checker_env self.old)))) (checker_env self.old)) }
        ensures stays { StaysOf self.old self.new }
    {
        self.read_value(e, None)
    }

    /// Reads an annotation of the module, and gives its type, if there is one.
    ///
    /// # Errors
    ///
    /// `NoMemory` where memory is refused. The checker may only be dropped then.
    pub fn annotation(
        &mut self,
        annotation: &Option<TypeTree>,
    ) -> Result<Option<FlowType>, NoMemory>
        ensures ty { IfOk result (λ t. t ≡ annotated (checker_world self.old) (option_map type_view annotation.now)) }
        ensures env { OnOk result (checker_env self.new ≡ noted_env (annotation_read (checker_world self.old) (option_map type_view annotation.now)) (checker_env self.old)) }
        ensures stays { StaysOf self.old self.new }
    {
        let world = self.around.world();
        read_annotation(&world, annotation, &mut self.state.notes)?;
        let ty = annotated(&world, annotation)?;
        Ok(ty)
    }

    /// Reads the next item of the module.
    ///
    /// # Errors
    ///
    /// `NoMemory` where memory is refused. The checker may only be dropped then.
    pub fn read_item(&mut self, item: &Item) -> Result<(), NoMemory>
        ensures env { (p : Program) (m : g.Module) → IsFor self.old p m → OnOk result (checker_env self.new ≡ read_item (checker_world self.old) p m (item_view item.now) (checker_env self.old)) }
        ensures stays { StaysOf self.old self.new }
    {
        let around = &self.around;
        let world = around.world();
        let reading = Reading {
            world: &world,
            imports: &around.imports,
        };
        read_item(&reading, &mut self.state, item)?;
        Ok(())
    }

    /// Names a byte place to be watched, before the first item is read.
    pub fn watch(&mut self, at: u32)
        ensures world { checker_world self.new ≡ record (checker_world self.old) { watch = Some at } }
        ensures env { checker_env self.new ≡ checker_env self.old }
        ensures stays { (p : Program) (m : g.Module) → IsFor self.old p m → IsFor self.new p m }
    {
        self.around.watch = Some(at);
    }

    /// The type of the innermost expression so far that covers the watched place.
    pub fn watched(&self) -> Option<&FlowType>
        ensures { option_copied result ≡ seen_type (checker_env self.now).notes.watched }
    {
        match self.state.notes.watched() {
            Some(seen) => Some(&seen.ty),
            None => None,
        }
    }

    /// The faults so far, in the order of finding, each once.
    #[tactic(auto, unfolding(crate::specs::View::checker_env, crate::specs::Handed::now))]
    pub fn faults(&self) -> &[Fault]
        ensures { result.now ≡ (checker_env self.now).notes.faults }
    {
        self.state.notes.faults()
    }
}
