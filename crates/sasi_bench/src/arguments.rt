// The arguments of a program.
use std::env;
use std::env::Env;

/// The arguments behind the program's own name.
pub fn words<R: Env + AllocGlobal>(rt: &R) -> Option<Vec<String>> {
    let args = env::args(rt).ok()?;
    args.skip(1).collect(rt.alloc()).ok()
}
