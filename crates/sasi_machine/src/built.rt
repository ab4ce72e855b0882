// What is built of the grammar.
ghost use Rattle.std.specs.Prelude.{◌≡◌};
ghost use Rattle.sasi_model.specs.Refusals.{is_built};

use sasi_types::Statement;

/// The statement is built, with all its clauses.
pub fn is_built(statement: &Statement) -> bool
    ensures { result ≡ is_built statement.now }
{
    match statement {
        Statement::CreateTable { .. }
        | Statement::Insert { .. }
        | Statement::Update { .. }
        | Statement::Delete { .. }
        | Statement::Query { .. }
        | Statement::Flush { .. }
        | Statement::Compact { .. }
        | Statement::BeginCompact { .. }
        | Statement::StepCompact { .. }
        | Statement::Trace { .. }
        | Statement::ShowFiles
        | Statement::OpenCursor { .. }
        | Statement::Fetch { .. }
        | Statement::CloseCursor { .. } => true,
        Statement::CreateIndex { stepped, .. } => !*stepped,
        _ => false,
    }
}
