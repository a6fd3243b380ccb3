//! What a job makes of the lines that it pulls: formats, steps, policies, forks, counts, results and names. No function
//! works here. Each states laws of these definitions, or computes them; it takes nothing and does nothing.
#![tactic(auto)]

ghost use Rattle.std.specs.Prelude.{◌≡◌, ℕ, true, List};
ghost use Rattle.gob_plan.specs.declared.units.Unit.{Unit as WorkUnit};
ghost use Rattle.gob_meaning.specs.Laws.{NamesTellApart, SentIsPlaced, DaysHaveDates, StepKeeps, StepsKeep};
ghost use Rattle.gob_meaning.specs.Laws.{FormatKeeps, TestsFit, ReadIsWritten, FitsInParts, RulesAside, PlacesAside};
ghost use Rattle.gob_meaning.specs.Laws.{FoldJoins, PartsJoin, IsPlainText, MakesItself, IsGoodAlone};
ghost use Rattle.gob_meaning.specs.Fold.{Folded};
ghost use Rattle.gob_meaning.specs.Job.{plain_plan};
ghost use Rattle.gob_meaning.specs.Plans.{is_fitting};
ghost use Rattle.gob_meaning.specs.TablesOfPlaces.{DayTable};
ghost use Rattle.gob_meaning.specs.TablesOfValues.{CastTable, ReadTable, WriteTable};
ghost use Rattle.gob_meaning.specs.TablesOfTests.{CompareTable, CheckTable, FitTable};
ghost use Rattle.gob_meaning.specs.TablesOfSteps.{ColumnsTable, RowsTable, PiecesTable, StepsTable, ChainTable};
ghost use Rattle.gob_meaning.specs.TablesOfPlans.{FormatTable, PlaceTable, PlanTable};
ghost use Rattle.gob_meaning.specs.TablesOfUnits.{RulingTable, ForkTable, SentTable, TargetTable, SumTable, RuleTable};
ghost use Rattle.gob_meaning.specs.TablesOfUnits.{ResultTable, GoneUnit, StopTable, NameTable};
ghost use Rattle.gob_plan.specs.declared.plan.Plan.{Plan};
ghost use Rattle.gob_plan.specs.declared.plan.Format.{Format};
ghost use Rattle.gob_plan.specs.declared.rows.Column.{Column};
ghost use Rattle.gob_plan.specs.declared.checks.TestSpec.{TestSpec};
ghost use Rattle.gob_plan.specs.declared.steps.StepSpec.{StepSpec};

/// Under the plain plan whole lines of UTF-8 are published as they are.
pub fn lines_made_are_the_bytes()
    ensures made { (lo : ℕ) (bytes : List ℕ) → IsPlainText bytes → MakesItself lo bytes }
    ensures fitting { is_fitting plain_plan ≡ true }
    ensures good { (unit : WorkUnit) (bytes : List ℕ) → IsPlainText bytes → IsGoodAlone unit bytes }
{}

/// What a text in two pieces makes: its lines, what is sent, the counts, and where it stops.
pub fn folds_join()
    ensures lines { (plan : Plan) (lo : ℕ) (x y : List ℕ) → FoldJoins plan lo x y }
    ensures parts { (plan : Plan) (x y : List Folded) → PartsJoin plan x y }
{}

/// A file's name tells its target, its partition and its range.
pub fn names_tell_apart()
    ensures apart { NamesTellApart }
    ensures placed { SentIsPlaced }
{}

/// The date of a day number is the one date of the calendar that has this number; a second's folder is its day.
pub fn days_have_dates()
    ensures dates { DaysHaveDates }
    ensures folders { DayTable }
{}

/// Steps and formats make proper columns of proper ones and rows that conform of rows that conform.
pub fn rows_conform()
    ensures steps { (s : StepSpec) (columns after : List Column) → StepKeeps s columns after }
    ensures chains { (ss : List StepSpec) (columns : List Column) → StepsKeep ss columns }
    ensures formats { (f : Format) (columns : List Column) → FormatKeeps f columns }
    ensures tests { (t : TestSpec) (columns : List Column) → TestsFit t columns }
    ensures read_is_written { (f : Format) (columns : List Column) → ReadIsWritten f columns }
{}

/// A plan fits where its parts do; its rules for whole units change nothing of what its lines make, and its places only
/// where that goes.
pub fn plans_fit_in_parts()
    ensures parts { (plan : Plan) → FitsInParts plan }
    ensures rules { (plan : Plan) → RulesAside plan }
    ensures places { (plan : Plan) → PlacesAside plan }
{}

/// What casts give, what lines are read as, and how rows are written, as tables.
pub fn tables_of_values()
    ensures casts { CastTable }
    ensures read { ReadTable }
    ensures written { WriteTable }
{}

/// What tests say of values and which columns they fit, as tables.
pub fn tables_of_tests()
    ensures comparisons { CompareTable }
    ensures checks { CheckTable }
    ensures fits { FitTable }
{}

/// What steps make of columns and of rows, as tables.
pub fn tables_of_steps()
    ensures columns { ColumnsTable }
    ensures rows { RowsTable }
    ensures pieces { PiecesTable }
    ensures in_turn { StepsTable }
    ensures chains { ChainTable }
{}

/// Which columns formats and places go with, and which plans fit, as tables.
pub fn tables_of_plans()
    ensures formats { FormatTable }
    ensures places { PlaceTable }
    ensures plans { PlanTable }
{}

/// What units make and what becomes of them, as tables.
pub fn tables_of_units()
    ensures rulings { RulingTable }
    ensures forks { ForkTable }
    ensures sent { SentTable }
    ensures targets { TargetTable }
    ensures sums { SumTable }
    ensures rules { RuleTable }
    ensures results { ResultTable }
    ensures gone { GoneUnit }
    ensures stops { StopTable }
    ensures names { NameTable }
{}
