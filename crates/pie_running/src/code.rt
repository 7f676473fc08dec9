//! The code of a task.
ghost use Rattle.std.specs.Prelude.{◌≡◌, length, IfSome};
ghost use Rattle.std.specs.Option.{option_map};
ghost use Rattle.std.specs.List.{Contains};
ghost use Rattle.pie_digest.specs.Digests.{function_names};
ghost use Rattle.pie_running.specs.inner.Coded.{IsCodeAt, IsCodeFor};

use pie_code::Checked;
use pie_types::Typed;
use pie_value::Task;

/// The code of a task's function, where it takes as many arguments.
#[tactic(auto, using(crate::proofs::Known::found_known))]
pub fn code_of<'a>(typed: &Typed, codes: &'a [Checked], task: &Task) -> Option<&'a Checked>
    ensures takes { IfSome result (λ code. length task.now.args ≡ code.now.params) }
    ensures known { IfSome result (λ _. Contains (function_names typed.now) task.now.func) }
    ensures found { IsCodeFor typed.now codes.now task.now (option_map (λ code. code.now) result) }
{
    match typed.find(task) {
        Some(number) => code_at(codes, number as usize, task),
        None => None,
    }
}

// The code with a number, where it takes as many arguments as the task has.
fn code_at<'a>(codes: &'a [Checked], number: usize, task: &Task) -> Option<&'a Checked>
    ensures takes { IfSome result (λ code. length task.now.args ≡ code.now.params) }
    ensures found { IsCodeAt codes.now number task.now (option_map (λ code. code.now) result) }
{
    if number >= codes.len() {
        return None;
    }
    let code = &codes[number];
    if task.args.as_slice().len() != code.code().params as usize {
        return None;
    }
    Some(code)
}
