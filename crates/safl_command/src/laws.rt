//! Laws of command lines: which words are which command.
#![tactic(auto, using(crate::proofs::ExactLines::laws))]

ghost use Rattle.safl_command.specs.Laws.{CheckWords, CheckLines, BuildWords, BuildLines, OptimiseWords, OptimiseLines, SimWords, SimLines, WalkWords, WalkLines, RunWords, RunLines, ReportWords, ReportLines, GenWords, GenLines, BenchWords, BenchLines, CopyWords, CopyLines, UnfoldWords, UnfoldLines, SessionWords, SessionLines, AigWords, AigLines, AigstatWords, AigstatLines};
ghost use Rattle.safl_command.specs.Spelled.{LinesAreExact, OthersAreNone, CasesAreNone};

/// `check IN`.
pub fn check_law()
    ensures words { CheckWords }
    ensures lines { CheckLines }
{}

/// `build IN OUT`.
pub fn build_law()
    ensures words { BuildWords }
    ensures lines { BuildLines }
{}

/// `build IN OUT --opt`.
pub fn optimise_law()
    ensures words { OptimiseWords }
    ensures lines { OptimiseLines }
{}

/// `sim IN --cycles L [--vcd F1] [--starts F2] [--toggles F3] [ARG..]`.
pub fn sim_law()
    ensures words { SimWords }
    ensures lines { SimLines }
{}

/// `walk IN --order SEED --steps N [ARG..]`.
pub fn walk_law()
    ensures words { WalkWords }
    ensures lines { WalkLines }
{}

/// `run FILE --cycles L [ARG..]`.
pub fn run_law()
    ensures words { RunWords }
    ensures lines { RunLines }
{}

/// `report IN`.
pub fn report_law()
    ensures words { ReportWords }
    ensures lines { ReportLines }
{}

/// `gen SEED COUNT`.
pub fn gen_law()
    ensures words { GenWords }
    ensures lines { GenLines }
{}

/// `bench SEED COUNT --cycles L`.
pub fn bench_law()
    ensures words { BenchWords }
    ensures lines { BenchLines }
{}

/// `reshape IN OUT --copy K`.
pub fn copy_law()
    ensures words { CopyWords }
    ensures lines { CopyLines }
{}

/// `reshape IN OUT --unfold K`.
pub fn unfold_law()
    ensures words { UnfoldWords }
    ensures lines { UnfoldLines }
{}

/// `session IN SCRIPT --cycles L`.
pub fn session_law()
    ensures words { SessionWords }
    ensures lines { SessionLines }
{}

/// `aig FILE OUT`.
pub fn aig_law()
    ensures words { AigWords }
    ensures lines { AigLines }
{}

/// `aigstat FILE`.
pub fn aigstat_law()
    ensures words { AigstatWords }
    ensures lines { AigstatLines }
{}

/// Exactly these lines are commands.
pub fn exact_law()
    ensures lines { LinesAreExact }
    ensures others { OthersAreNone }
    ensures cases { CasesAreNone }
{}
