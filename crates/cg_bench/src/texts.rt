//! Texts of states, as the core keeps them, in buffers that can be shared: made, shared, and joined one after the other.

use crate::cases::Texts;
use std::alloc::{AllocError, Global};
use std::ops::Deref;
use std::sync::Arc;

/// The bytes of a text, or of some that share it.
pub(crate) type Buffer = Arc<Vec<u8>, Global>;

/// Buffers, and texts that share them.
#[derive(Drop)]
pub(crate) struct Shared {
    pub(crate) buffers: Vec<Buffer>,
    texts: Vec<Buffer>,
}

fn buffer_of(alloc: Global, text: &str) -> Result<Buffer, AllocError> {
    Ok(Arc::new(alloc, Vec::from_slice(alloc, text.as_bytes())?)?)
}

/// Makes this number of copies of a text, each in a buffer of its own.
pub(crate) fn copies(alloc: Global, text: &str, count: usize) -> Result<Vec<Buffer>, AllocError> {
    let mut texts = Vec::with_capacity(alloc, count)?;
    for _ in 0..count {
        texts.push(buffer_of(alloc, text)?)?;
    }
    Ok(texts)
}

// Adds this number of texts that share a buffer.
fn add_sharers(texts: &mut Vec<Buffer>, buffer: &Buffer, count: usize) -> Result<(), AllocError> {
    for _ in 0..count {
        texts.push(Arc::try_clone(buffer)?)?;
    }
    Ok(())
}

/// Makes this number of copies of some texts, each in one buffer, which this number of texts then shares, as those of an
/// entry share its section.
pub(crate) fn share(
    alloc: Global,
    texts: &str,
    count: usize,
    each: usize,
) -> Result<Shared, AllocError> {
    let buffers = copies(alloc, texts, count)?;
    let mut texts = Vec::with_capacity(alloc, count.saturating_mul(each))?;
    for buffer in &buffers {
        add_sharers(&mut texts, buffer, each)?;
    }
    Ok(Shared { buffers, texts })
}

/// Returns one of the texts, or this number of them, one after the other.
pub(crate) fn text_of(alloc: Global, texts: Texts, count: usize) -> Result<String, AllocError> {
    texts.part.repeat(alloc, texts.times.saturating_mul(count))
}

/// Returns all of the texts.
pub(crate) fn texts_of(alloc: Global, texts: Texts) -> Result<Vec<Buffer>, AllocError> {
    copies(alloc, &text_of(alloc, texts, 1)?, texts.count)
}

/// Returns the number of bytes of all the texts, with this number of bytes before each.
pub(crate) fn room_for(texts: Texts, before: usize) -> usize {
    let each = texts
        .part
        .len()
        .saturating_mul(texts.times)
        .saturating_add(before);
    each.saturating_mul(texts.count)
}

/// Joins the texts one after the other, in room for this number of bytes.
pub(crate) fn joined(alloc: Global, texts: &[Buffer], room: usize) -> Result<Vec<u8>, AllocError> {
    let mut all = Vec::with_capacity(alloc, room)?;
    for text in texts {
        all.extend_from_slice(text.deref())?;
    }
    Ok(all)
}

// Returns the bytes before a text, as before that of a state: a key, a version and the length.
fn head_of(version: u32, size: u16) -> [u8; 7] {
    let mut head = [1u8; 7];
    head[1..5].copy_from_slice(&version.to_be_bytes());
    head[5..].copy_from_slice(&size.to_be_bytes());
    head
}

// Returns the number of bytes of each of the texts.
fn size_of_each(texts: &[Buffer]) -> u16 {
    match texts.first() {
        Some(text) => u16::try_from(text.len()).unwrap_or(0),
        None => 0,
    }
}

/// Joins the texts one after the other, each after seven bytes, as a state has it.
pub(crate) fn headed(alloc: Global, texts: &[Buffer], room: usize) -> Result<Vec<u8>, AllocError> {
    let mut all = Vec::with_capacity(alloc, room)?;
    let size = size_of_each(texts);
    let mut version: u32 = 0;
    for text in texts {
        all.extend_from_slice(&head_of(version, size))?;
        all.extend_from_slice(text.deref())?;
        version = version.wrapping_add(1);
    }
    Ok(all)
}
