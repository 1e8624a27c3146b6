// The protocols whose files are read.
use controller_rows::plan_of;
use example_texts::RowText;
use ruby_base::NoMemory;
use ruby_outside::Library;
use slicc_plan::Plan;
use std::alloc::Global;

fn read<L: Library>(
    alloc: Global,
    library: &mut L,
    folder: &str,
    file: &str,
) -> Result<Option<Plan>, NoMemory> {
    let path = format!(in alloc; "{folder}/{file}")?;
    plan_of(alloc, library, path.as_str())
}

/// The plan of the protocol of a file in this folder, if it keeps all rules.
pub(crate) fn plan_in<L: Library>(
    rows: &mut RowText,
    library: &mut L,
    folder: &str,
    file: &str,
) -> Option<Plan> {
    match read(rows.alloc(), library, folder, file) {
        Ok(plan) => plan,
        Err(NoMemory) => {
            rows.lose();
            None
        }
    }
}
