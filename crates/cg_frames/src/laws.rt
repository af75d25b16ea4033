//! Laws of frames, each the contract of an empty function.

ghost use Rattle.std.specs.Prelude.{◌≡◌, ◌<◌, List, length, true, false};
ghost use Rattle.cg_frames.specs.declared.layout.Layout.{Layout};
ghost use Rattle.cg_frames.specs.declared.layout.TheConstants.{LAYOUT_1, LAYOUT_2, LAYOUT_3, LAYOUTS, WRITTEN};
ghost use Rattle.cg_entry.specs.declared.spelled.TheConstants.{TOMBSTONE};
ghost use Rattle.cg_frames.specs.Layouts.{IsLayout, IsRead, IsWritten};
ghost use Rattle.cg_frames.specs.Choosing.{AreLayouts, AreRead, IsOneOf};
ghost use Rattle.cg_frames.specs.Lengths.{greatest_length};
ghost use Rattle.cg_frames.specs.Laws.{NoSpellingBeginsAnother, EachIsShort, ChoosesByTheByte, SomeAreLacking, PiecesAddUp, EveryCuttingIsTheWhole, WhatIsHeldIsPartial, FaultsAreBadFrames, TwoPiecesAreOne, OneAtATime, AllIsSpelled, NothingElseIsSpelled};

/// No message's frame begins with the frame of another message, in any layouts of a list.
pub fn no_spelling_begins_another()
    ensures { (layouts : List Layout) → AreLayouts layouts → NoSpellingBeginsAnother layouts }
{}

/// No message's frame has more bytes after its length than its layout's greatest, by the limits: 4,231,430
/// in the first layout, 33,628,678 in the second and in the one that is written.
pub fn each_is_short()
    ensures each { (layout : Layout) → EachIsShort layout }
    ensures greatest { greatest_length LAYOUT_1 ≡ 4231430 }
    ensures greatest_2 { greatest_length LAYOUT_2 ≡ 33628678 }
    ensures greatest_written { greatest_length WRITTEN ≡ 33628678 }
{}

/// The first layout's numbers fit into the fields that count and measure, and its greatest frame is read. The law
/// states each of the numbers.
pub fn layout_1_is_one()
    ensures numbers { LAYOUT_1 ≡ record { byte = 1; members = 256; text = 1024; length = 5000000; tombstones = false } }
    ensures layout { IsLayout LAYOUT_1 }
{}

/// The second layout's numbers fit into the fields that count and measure, and its greatest frame is read. The law
/// states each of the numbers.
pub fn layout_2_is_one()
    ensures numbers { LAYOUT_2 ≡ record { byte = 2; members = 512; text = 4096; length = 40000000; tombstones = false } }
    ensures layout { IsLayout LAYOUT_2 }
{}

/// The numbers of the third layout: as the second, with tombstones, which a length of 65,535 stands for.
pub fn layout_3_is_one()
    ensures numbers { LAYOUT_3 ≡ record { byte = 3; members = 512; text = 4096; length = 40000000; tombstones = true } }
    ensures tombstone { TOMBSTONE ≡ 65535 }
    ensures layout { IsLayout LAYOUT_3 }
{}

/// The layout that is written is the third. It allows what messages hold, and is one of those that are read.
pub fn what_is_written_is_read()
    ensures third { WRITTEN ≡ LAYOUT_3 }
    ensures written { IsWritten WRITTEN }
    ensures read { IsOneOf LAYOUTS WRITTEN }
{}

/// Each of the three layouts is read. The layouts that are read have different bytes; the limits of each fit, and
/// messages hold what it allows.
pub fn layouts_are_told_apart()
    ensures first { IsOneOf LAYOUTS LAYOUT_1 }
    ensures second { IsOneOf LAYOUTS LAYOUT_2 }
    ensures third { IsOneOf LAYOUTS LAYOUT_3 }
    ensures layouts { AreLayouts LAYOUTS }
    ensures read { AreRead LAYOUTS }
{}

/// A frame is read in the layout that the byte after its length names. Before the byte has come, a length that no
/// layout allows is refused, and any other waits for the byte. A byte that names no layout is refused once the frame is
/// whole.
pub fn the_byte_names_the_layout()
    ensures { (layouts : List Layout) → 0 < length layouts → ChoosesByTheByte layouts }
{}

/// The number of bytes that are lacking is at least 1 if more bytes are needed.
pub fn some_are_lacking()
    ensures { (layouts : List Layout) → SomeAreLacking layouts }
{}

/// Chunks give the messages, the fault and the rest that they give at once, in any state of the feed.
pub fn pieces_add_up()
    ensures { (layouts : List Layout) → PiecesAddUp layouts }
{}

/// Chunks of a stream give the messages, the fault and the rest of the whole, however it is cut.
pub fn every_cutting_is_the_whole()
    ensures { (layouts : List Layout) → EveryCuttingIsTheWhole layouts }
{}

/// The bytes that a feed holds are never a whole frame, and begin with no fault.
pub fn what_is_held_is_partial()
    ensures { (layouts : List Layout) → WhatIsHeldIsPartial layouts }
{}

/// A fault of a frame, and of a stream that comes in chunks, is `BadFrame`.
pub fn faults_are_bad_frames()
    ensures { (layouts : List Layout) → FaultsAreBadFrames layouts }
{}

/// Two chunks in turn give what both give at once.
pub fn two_pieces_are_one()
    ensures { (layouts : List Layout) → TwoPiecesAreOne layouts }
{}

/// A chunk that is no longer than what is lacking gives at most one message. If it gives one, nothing is held then.
pub fn one_at_a_time()
    ensures { (layouts : List Layout) → OneAtATime layouts }
{}

/// All bytes are the spellings of the messages that they are cut into, and then the rest or the fault.
pub fn all_is_spelled()
    ensures { (layouts : List Layout) → AreRead layouts → AllIsSpelled layouts }
{}

/// No other messages and no other rest are in the bytes.
pub fn nothing_else_is_spelled()
    ensures { (layouts : List Layout) → AreLayouts layouts → NothingElseIsSpelled layouts }
{}
