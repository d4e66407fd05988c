use compliance::Threat;
use control_flow::Control;
use data_use::UseRow;
use flow_graph::Arc;
use flow_slice::Fixed;
use il_core::{List, Name, NamedCert, Place};
use info_flow::FlowRow;
use interval_reduce::Derivation;
use path_expr::PathReport;
use semantic_tables::TableOr;

/// The table of a region.
#[derive(Drop)]
pub struct RegionTable {
    /// The first line of the region: 0 or a loop head.
    pub pc: usize,
    /// Its rows, or the first limit that the region passes.
    pub body: TableOr,
}

/// The test inputs of a region within its size.
#[derive(Drop)]
pub struct RegionInputs {
    /// The first line of the region.
    pub pc: usize,
    /// The test input of each row of its table, in order: the value of each place; `None` where the row has none.
    pub rows: List<Option<List<i64>>>,
}

/// What the slice for one variable keeps and fixes.
#[derive(Drop)]
pub struct SliceRow {
    /// The number of the variable.
    pub place: usize,
    /// The reachable lines that decide its final value, ascending.
    pub keep: List<usize>,
    /// The reachable tests that the slice fixes, ascending.
    pub fixed: List<Fixed>,
}

/// What is told of a reducible procedure alone.
#[derive(Drop)]
pub struct Analyses {
    /// All paths from line 0 to the last line.
    pub paths: PathReport,
    /// How each variable is used, in the order of the places.
    pub usage: List<UseRow>,
    /// What the final value of each variable rests on, in the order of the places.
    pub flows: List<FlowRow>,
    /// The slice for each variable, in the order of the places.
    pub slices: List<SliceRow>,
    /// The table of each region, by their first lines.
    pub tables: List<RegionTable>,
    /// The test inputs of each region within its size, by their first lines.
    pub inputs: List<RegionInputs>,
    /// The threats of all regions within their size, in order, each with its verdict.
    pub threats: List<Threat>,
    /// A certificate for each refuted threat, in order.
    pub made: List<NamedCert>,
}

/// What is said of a certificate that was read.
#[derive(Clone, Copy, Drop)]
pub struct CertRow {
    /// The number of the threat that it is for, counted from 1.
    pub threat: usize,
    /// Whether there is such a threat and the certificate is accepted for it.
    pub holds: bool,
}

/// The lines of a procedure that stand for one of its calls.
#[derive(Clone, Copy, Debug, PartialEq, Eq, Drop)]
pub struct CallLine {
    /// The first of them.
    pub first: usize,
    /// The last of them.
    pub last: usize,
    /// The name of the procedure that is called.
    pub callee: Name,
}

/// The report of one procedure.
#[derive(Drop)]
pub struct ProcReport {
    /// The procedure's name.
    pub name: Name,
    /// Its places: its variables, then the OLD copies of its INOUT variables.
    pub places: List<Place>,
    /// The number of its lines.
    pub lines: usize,
    /// Its calls in order, each with the lines that stand for it.
    pub calls: List<CallLine>,
    /// The arcs of its graph, which are numbered from 1.
    pub arcs: List<Arc>,
    /// Its control structure.
    pub control: Control,
    /// Its reduction by intervals.
    pub derivation: Derivation,
    /// The other analyses, exactly where it is reducible.
    pub analyses: Option<Analyses>,
    /// A row for each certificate that was read for it, in order.
    pub certs: List<CertRow>,
}

/// The report of a text, or of its first procedures.
#[derive(Drop)]
pub struct Report {
    /// The profile of the text, 1 or 2.
    pub profile: u8,
    /// The title of the text.
    pub title: Name,
    /// The reports of its procedures, in their order.
    pub procs: List<ProcReport>,
}
