//! Laws of the definitions: functions that do nothing, whose contracts are theorems.

ghost use Rattle.std.specs.Prelude.{◌≡◌, Err, Ok, Some};
ghost use Rattle.values.specs.declared.causes.Cause.TheVariants as cause;
ghost use Rattle.feed.specs.Events.{given};
ghost use Rattle.view_lang.specs.ConfigRules.{IsConfig};
ghost use Rattle.view_lang.specs.declared.config.Role.TheVariants as role;
ghost use Rattle.session.specs.Laws.{MemoryChangesNothing, OthersStay, RefusalsKeepEdits};
ghost use Rattle.session.specs.Readings.{WrittenIsRead};
ghost use Rattle.session.specs.Sample.{after_two, row_again, sample_config, sample_tables, two_rows};
ghost use Rattle.session.specs.Steps.{no_edits, push_answer, push_past, pushed, undone};
ghost use Rattle.session.specs.declared.calls.Event.TheVariants as event;

/// A refused push leaves the accepted edits, and how many of them can be undone, as they were; after `Memory` all is as
/// it was. No push changes another feed than its own.
#[tactic(auto, using(crate::proofs::RefusedPushes::refusing))]
pub fn refusal_law()
    ensures edits { RefusalsKeepEdits }
    ensures memory { MemoryChangesNothing }
    ensures others { OthersStay }
{}

/// What a run of a fresh session wrote of a view, read by the format's rules, is exactly the table that the view's
/// definition gives from scratch on the rows left by the accepted edits that aren't undone by then.
#[tactic(auto, using(crate::proofs::Readings::written_read))]
pub fn reading_law()
    ensures { WrittenIsRead }
{}

/// Some steps of a small configuration: a batch that is accepted, one that names a live key, and an undo.
#[tactic(auto, using(crate::proofs::Sample::sample))]
pub fn sample_law()
    ensures config { IsConfig sample_config }
    ensures accepted { push_answer sample_tables role.Append no_edits (Ok (given 208 (Some two_rows))) ≡ Ok
        (pushed 208 (Some event.Batch)) }
    ensures edits { push_past sample_tables role.Append no_edits (Ok (given 208 (Some two_rows))) ≡ after_two }
    ensures unfit { push_answer sample_tables role.Append after_two (Ok (given 208 (Some row_again))) ≡ Err
        (record { cause = cause.DuplicateKey; used = 208 }) }
    ensures retained { push_past sample_tables role.Append after_two (Ok (given 208 (Some row_again))) ≡ after_two }
    ensures undone { undone after_two ≡ no_edits }
    ensures nothing { undone no_edits ≡ no_edits }
{}
