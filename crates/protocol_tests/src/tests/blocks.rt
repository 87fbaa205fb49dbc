//! What no clause says: that these calls succeed where memory is to be had.
use block_tree::*;
use std::alloc::Global;

fn text(alloc: Global, bytes: &[u8]) -> Option<Item> {
    Some(Item::Text(Octets::from_slice(alloc, bytes).ok()?))
}

fn node(alloc: Global, channel: bool, name: &[u8]) -> Option<Node> {
    let name = TagName::from_slice(alloc, name).ok()?;
    Some(Node {
        tag: Tag { channel, name },
        items: Vec::new(alloc),
    })
}

// Whether the item gets its place, where there is one.
fn is_added(node: &mut Node, item: Option<Item>) -> bool {
    match item {
        Some(item) => node.items.push(item).is_ok(),
        None => false,
    }
}

// A node with one text.
fn leaf(alloc: Global, channel: bool, name: &[u8], bytes: &[u8]) -> Option<Node> {
    let mut leaf = node(alloc, channel, name)?;
    if is_added(&mut leaf, text(alloc, bytes)) {
        Some(leaf)
    } else {
        None
    }
}

// The node with this one after it, and a text after that.
fn with(alloc: Global, outer: Node, inner: Node, bytes: &[u8]) -> Option<Node> {
    let mut outer = outer;
    let block = is_added(&mut outer, Some(Item::Block(inner)));
    let text = is_added(&mut outer, text(alloc, bytes));
    if block && text { Some(outer) } else { None }
}

// verbatim:4 prompt#> 2
fn answer_with_prompt(alloc: Global) -> Option<Block> {
    let answer = leaf(alloc, false, b"verbatim", b"4")?;
    let prompt = leaf(alloc, true, b"prompt", b"> ")?;
    Block::new(with(alloc, answer, prompt, b"2")?).ok()
}

// Whether the output of the block is this other one.
fn puts_out(alloc: Global, whole: &Block, output: Node) -> Option<bool> {
    let output = Block::new(output).ok()?;
    Some(output_of(alloc, whole).ok()? == output && *whole != output)
}

// Whether the text of the channel is this one.
fn says(alloc: Global, whole: &Block, channel: &[u8], text: &[u8]) -> Option<bool> {
    let text = Octets::from_slice(alloc, text).ok()?;
    Some(channel_text(alloc, whole, channel).ok()? == Some(text))
}

// Whether the answer without its prompt is one text.
fn is_put_out(alloc: Global) -> Option<bool> {
    let whole = answer_with_prompt(alloc)?;
    puts_out(alloc, &whole, leaf(alloc, false, b"verbatim", b"42")?)
}

fn is_copied(alloc: Global) -> Option<bool> {
    let whole = answer_with_prompt(alloc)?;
    Some(whole.copy().ok()? == whole)
}

#[test]
fn output_leaves_the_prompt_and_joins_texts(rt: HostRuntime) {
    assert!(rt; is_put_out(rt.alloc()) == Some(true));
    assert!(rt; is_copied(rt.alloc()) == Some(true));
}

fn says_its_prompt(alloc: Global) -> Option<bool> {
    says(alloc, &answer_with_prompt(alloc)?, b"prompt", b"> ")
}

fn has_no_input(alloc: Global) -> Option<bool> {
    let whole = answer_with_prompt(alloc)?;
    Some(channel_text(alloc, &whole, b"input").ok()?.is_none())
}

#[test]
fn channels_have_texts(rt: HostRuntime) {
    assert!(rt; says_its_prompt(rt.alloc()) == Some(true));
    assert!(rt; has_no_input(rt.alloc()) == Some(true));
}

// prompt#A prompt#B C
fn two_prompts(alloc: Global) -> Option<Block> {
    let outer = leaf(alloc, true, b"prompt", b"A")?;
    let inner = leaf(alloc, true, b"prompt", b"B")?;
    Block::new(with(alloc, outer, inner, b"C")?).ok()
}

fn says_the_inner_one(alloc: Global) -> Option<bool> {
    says(alloc, &two_prompts(alloc)?, b"prompt", b"B")
}

fn puts_out_nothing(alloc: Global) -> Option<bool> {
    let whole = two_prompts(alloc)?;
    puts_out(alloc, &whole, node(alloc, false, b"verbatim")?)
}

// The block that opens last gives the text, and the outer one has no output.
#[test]
fn the_last_to_open_is_the_prompt(rt: HostRuntime) {
    assert!(rt; says_the_inner_one(rt.alloc()) == Some(true));
    assert!(rt; puts_out_nothing(rt.alloc()) == Some(true));
}

// Whether a queue gives back two numbers in their order.
fn queue_keeps(alloc: Global) -> bool {
    let mut queue = Queue::new(alloc);
    if queue.push(1u32).is_err() || queue.push(2u32).is_err() {
        return false;
    }
    let is_there = queue.len() == 2 && queue.front() == Some(&1);
    is_there && queue.pop() == Some(1) && queue.pop() == Some(2) && queue.is_empty()
}

// Whether a sequence has the number that it is given.
fn sequence_keeps(alloc: Global) -> bool {
    let mut sequence = Sequence::new(alloc);
    sequence.push(7u8).is_ok() && sequence.as_slice() == [7u8].as_slice()
}

// Whether a text is what its string was, and a copy of it too.
fn text_keeps(alloc: Global, string: &str) -> Option<bool> {
    let text = Text::from_string(String::from_str(alloc, string).ok()?);
    Some(text.copy().ok()? == text && text.as_str() == string)
}

#[test]
fn lists_keep_what_they_are_given(rt: HostRuntime) {
    assert!(rt; queue_keeps(rt.alloc()));
    assert!(rt; sequence_keeps(rt.alloc()));
    assert!(rt; text_keeps(rt.alloc(), "é") == Some(true));
}
