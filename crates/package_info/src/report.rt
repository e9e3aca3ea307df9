use farm_kinds::Limits;
use package_folder::{Checker, Package, Test};
use std::alloc::{AllocError, Global};

/// What a package has, in lines.
pub fn report(alloc: Global, package: &Package) -> Result<Vec<u8>, AllocError> {
    let mut text = Vec::new(alloc);
    push_package(alloc, &mut text, package)?;
    Ok(text)
}

fn push_package(alloc: Global, text: &mut Vec<u8>, package: &Package) -> Result<(), AllocError> {
    let tests = package.tests.as_slice();
    text.extend_from_slice(b"name ")?;
    text.extend_from_slice(package.name.as_slice())?;
    text.extend_from_slice(limits_line(alloc, package.limits)?.as_bytes())?;
    text.extend_from_slice(check_line(&package.check))?;
    for test in tests {
        push_test(alloc, text, test)?;
    }
    push_count(alloc, text, tests.len())
}

fn push_count(alloc: Global, text: &mut Vec<u8>, count: usize) -> Result<(), AllocError> {
    let line = format!(in alloc; "tests {count}\n")?;
    text.extend_from_slice(line.as_bytes())
}

fn limits_line(alloc: Global, limits: Limits) -> Result<String, AllocError> {
    let Limits {
        instructions,
        pages,
        output,
    } = limits;
    format!(in alloc; "\nlimits instructions {instructions} pages {pages} output {output}\n")
}

fn check_line(check: &Checker) -> &'static [u8] {
    match check {
        Checker::Default(_) => b"check default\n",
        Checker::Custom { .. } => b"check custom\n",
    }
}

fn push_test(alloc: Global, text: &mut Vec<u8>, test: &Test) -> Result<(), AllocError> {
    text.extend_from_slice(b"test ")?;
    text.extend_from_slice(test.name.as_slice())?;
    let input = test.input.as_slice().len();
    let answer = test.answer.as_slice().len();
    push_sizes(alloc, text, input, answer)
}

fn push_sizes(
    alloc: Global,
    text: &mut Vec<u8>,
    input: usize,
    answer: usize,
) -> Result<(), AllocError> {
    let sizes = format!(in alloc; " input {input} answer {answer}\n")?;
    text.extend_from_slice(sizes.as_bytes())
}
