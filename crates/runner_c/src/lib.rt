// The runner, for C.
#![tactic(auto)]

ghost use Rattle.runner.specs.Export.{Exported};

#[unsafe(no_mangle)]
pub extern "C" fn runner_run(input: &[u8], output: &mut [u8]) -> usize
    ensures { Exported input.now output.old result output.new }
{
    runner::runner_run(input, output)
}
