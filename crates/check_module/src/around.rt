//! What stands around the code of a module.
#![tactic(auto)]

ghost use Rattle.std.specs.Prelude.{◌≡◌, OnOk, IfOk};
ghost use Rattle.check_items.specs.check_moves.specs.View.{env};
ghost use Rattle.check_world.specs.View.{world_view};
ghost use Rattle.js_tree.specs.View.{items_view, module_view};
ghost use Rattle.module_errors.specs.Program.{Program};
ghost use Rattle.module_errors.specs.Errors.{top_env};
ghost use Rattle.import_sayings.specs.View.{sigs_of};
ghost use Rattle.check_items.specs.View.{Says};
ghost use Rattle.check_items.specs.Aliases.{own_aliases};
ghost use Rattle.check_module.specs.View.{HasAliases, prelude_env};

use alias_table::AliasTable;
use check_items::check_moves::State;
use check_items::{Types, bind_items, bind_prelude, note_second_exports, types_of};
use check_job::CheckJob;
use check_world::{TypeScope, World};
use flow_values::{NoMemory, Span};
use import_sayings::Imports;
use js_tree::{Item, Module};
use std::alloc::Global;

/// What stands around the code of a module: its spans, what its names mean as types, the aliases that
/// count, what other modules say, and the place that is watched.
#[derive(Drop)]
pub(crate) struct Around<'j> {
    pub alloc: Global,
    pub spans: &'j [Span],
    pub names: TypeScope,
    pub table: AliasTable,
    pub imports: Imports<'j>,
    pub watch: Option<u32>,
}

// The table of the module's own aliases and of those of all signatures.
fn table_of(alloc: Global, job: &CheckJob, types: &Types<'_>) -> Result<AliasTable, NoMemory>
    ensures { IfOk result (HasAliases (own_aliases job.now.path types.now) (sigs_of job.now.sigs.rows)) }
{
    let others = job.sigs.get().aliases();
    let mut rows = Vec::new(alloc);
    types.add_aliases(alloc, &job.path, &mut rows)?;
    let own = rows.as_slice();
    let table = AliasTable::over(alloc, own, others)?;
    Ok(table)
}

impl<'j> Around<'j> {
    ghost use Rattle.check_module.specs.View.{around_world, StandsFor};

    /// By a job, by the module and the spans of its tree, and by the place that is watched.
    ///
    /// # Errors
    ///
    /// `NoMemory` where memory is refused.
    pub fn of(
        alloc: Global,
        job: &'j CheckJob,
        module: &Module,
        spans: &'j [Span],
        watch: Option<u32>,
    ) -> Result<Around<'j>, NoMemory>
        ensures { IfOk result (λ a. StandsFor job.now (module_view «module».now) spans.now watch a) }
    {
        let deps = job.deps.get();
        let sigs = job.sigs.get();
        let items = module.items.as_slice();
        let imports = Imports::new(alloc, deps, sigs)?;
        let types = types_of(alloc, &job.path, &imports, items)?;
        let table = table_of(alloc, job, &types)?;
        let names = types.into_names();
        Ok(Around {
            alloc,
            spans,
            names,
            table,
            imports,
            watch,
        })
    }

    /// What stands around the code.
    #[tactic(auto, unfolding(crate::specs::View::around_world, check_world::specs::View::world_view))]
    pub fn world(&self) -> World<'_>
        ensures world { world_view result ≡ around_world self.now }
        ensures table { result.table.now ≡ self.now.table }
    {
        World {
            alloc: self.alloc,
            table: &self.table,
            names: &self.names,
            spans: self.spans,
            watch: self.watch,
        }
    }

    /// The state before the first of all items.
    ///
    /// # Errors
    ///
    /// `NoMemory` where memory is refused.
    #[tactic(auto, using(crate::proofs::Reading::prelude_bound))]
    pub fn start(&self, items: &[Item]) -> Result<State, NoMemory>
        ensures { (p : Program) → Says self.now.imports p → IfOk result (λ s. env s ≡ top_env (around_world self.now) p (items_view items.now)) }
    {
        let mut state = State::new(self.alloc);
        bind_prelude(self.alloc, &mut state.scope)?;
        self.bind(&mut state, items)?;
        Ok(state)
    }

    // Binds the names of all items, and notes the faults of those and of the exports.
    #[tactic(auto, using(crate::proofs::Reading::top_depth))]
    fn bind(&self, state: &mut State, items: &[Item]) -> Result<(), NoMemory>
        requires { env state.old ≡ prelude_env }
        ensures { (p : Program) → Says self.now.imports p → OnOk result (env state.new ≡ top_env (around_world self.now) p (items_view items.now)) }
    {
        let world = self.world();
        let (scope, notes) = (&mut state.scope, &mut state.notes);
        bind_items(&world, &self.imports, scope, notes, items)?;
        note_second_exports(&world, items, notes)?;
        Ok(())
    }
}
