//! Rows of the program, of its calls with files, of certified runs, of verdicts and of single layers. Each folder of `data` has the files of one module.
#![tactic(auto)]

mod certified;
mod check;
mod explain;
mod files;
mod program;
mod propose;
mod race;

use std::io;
use vs_row_files::compare_folder;
use vs_rows_layers::{Again, Preprocesses, Sources, Texts};

fn main(rt: HostRuntime) -> io::Result<()> {
    compare_folder(&rt, "program", &program::Calls)?;
    compare_folder(&rt, "files", &files::Calls)?;
    compare_folder(&rt, "certified", &certified::CertifiedRuns)?;
    compare_folder(&rt, "explain", &explain::Explains)?;
    compare_folder(&rt, "race", &race::Races)?;
    compare_folder(&rt, "check", &check::Checks)?;
    compare_folder(&rt, "propose", &propose::Proposes)?;
    compare_folder(&rt, "parser", &Texts)?;
    compare_folder(&rt, "elaborate", &Sources)?;
    compare_folder(&rt, "preprocess", &Preprocesses)?;
    compare_folder(&rt, "read_back", &Again)
}
