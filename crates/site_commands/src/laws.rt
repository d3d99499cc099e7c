//! What holds if nothing disturbs the commands.

ghost use Rattle.std.specs.Prelude.{Option};
ghost use Rattle.uip_edge.specs.Prelude.{Files, WorkView, WorkUnfailed};
ghost use Rattle.site_commands.specs.declared.site_end.SiteEnd.{SiteEnd as End};
ghost use Rattle.site_commands.specs.Prelude.{Due, Ends, EndsAsDue};
ghost use Rattle.file_tree.specs.Prelude.{LacksFile};

/// If no fault count rises and no file is missing, the command ends as is due for the shelf's files, or memory ran out.
pub fn ends_as_due()
    ensures { (due : Files → Option Due) (old new : WorkView) (end : End) → Ends due old new end
        → WorkUnfailed old new → ¬ (LacksFile due old.shelf.held)
        → EndsAsDue due old.shelf.held end }
{}
