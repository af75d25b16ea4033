//! Verdicts at worked times, settings of silence and their faults, and each call once with ample memory.

use cg_silence::{
    DEFAULT_INITIAL_GAP, DEFAULT_MAX_GAP, DEFAULT_THRESHOLD, DEFAULT_WINDOW, GAP_LIMIT,
    SharedWindow, Silence, SilenceFault, THRESHOLD_LIMIT, Verdict, WINDOW_LIMIT, Window,
};
use cg_testing::expect_eq;
use std::alloc::Global;
use std::test::Fail;

fn silence(window: usize, initial_gap: u32, max_gap: u32, threshold: u32) -> Result<Silence, Fail> {
    Ok(Silence::new(window, initial_gap, max_gap, threshold).ok_or("settings")?)
}

fn window(alloc: Global, silence: Silence, arrivals: &[u64]) -> Result<Window, Fail> {
    let mut window = Window::new(alloc, silence)?;
    for now in arrivals {
        window.arrived(*now);
    }
    Ok(window)
}

// The fault of settings, if any.
type Wrong = Option<SilenceFault>;

#[test]
fn settings_are_in_their_ranges() -> Result<(), Fail> {
    let cases: [((usize, u32, u32, u32), Wrong); 11] = [
        ((1, 1, 1, 1), None),
        ((1000, 86400000, 86400000, 1000000000), None),
        ((0, 1, 1, 1), Some(SilenceFault::Window)),
        ((1001, 1, 1, 1), Some(SilenceFault::Window)),
        ((1, 0, 1, 1), Some(SilenceFault::InitialGap)),
        ((1, 2, 1, 1), Some(SilenceFault::InitialGap)),
        ((1, 1, 0, 1), Some(SilenceFault::MaxGap)),
        ((1, 1, 86400001, 1), Some(SilenceFault::MaxGap)),
        ((1, 1, 1, 0), Some(SilenceFault::Threshold)),
        ((1, 1, 1, 1000000001), Some(SilenceFault::Threshold)),
        ((0, 0, 0, 0), Some(SilenceFault::Window)),
    ];
    for ((window, initial_gap, max_gap, threshold), wrong) in cases {
        let tried = Silence::try_new(window, initial_gap, max_gap, threshold);
        expect_eq!(tried.err(), wrong)?;
        let silence = Silence::new(window, initial_gap, max_gap, threshold);
        expect_eq!(silence.is_none(), wrong.is_some())?;
    }
    Ok(())
}

// Expects that these words describe a fault.
fn expect_told(alloc: Global, fault: SilenceFault, wanted: &str) -> Result<(), Fail> {
    let told = format!(in alloc; "{fault}")?;
    expect_eq!(told.as_str(), wanted)
}

#[test]
fn faults_are_told(rt: HostRuntime) -> Result<(), Fail> {
    for (fault, wanted) in [
        (SilenceFault::Window, "the window is not 1 to 1000 gaps"),
        (
            SilenceFault::MaxGap,
            "the greatest gap is not 1 to 86400000 milliseconds",
        ),
        (
            SilenceFault::InitialGap,
            "the initial gap is not 1 to the greatest gap",
        ),
        (
            SilenceFault::Threshold,
            "the threshold is not 1 to 1000000000",
        ),
    ] {
        expect_told(rt.alloc(), fault, wanted)?;
    }
    Ok(())
}

#[test]
fn verdicts_have_names() -> Result<(), Fail> {
    let names = [Verdict::Alive, Verdict::Silent, Verdict::Unheard].map(|verdict| verdict.name());
    expect_eq!(names, ["Alive", "Silent", "Unheard"])
}

#[test]
fn settings_are_read() -> Result<(), Fail> {
    let silence = silence(5, 2, 3, 4)?;
    expect_eq!(silence.window(), 5)?;
    expect_eq!(silence.initial_gap(), 2)?;
    expect_eq!(silence.max_gap(), 3)?;
    expect_eq!(silence.threshold(), 4)
}

#[test]
fn the_defaults() -> Result<(), Fail> {
    let silence = Silence::default();
    expect_eq!(Silence::new(1000, 2000, 60000, 18421), Some(silence))?;
    let named = Silence::new(
        DEFAULT_WINDOW,
        DEFAULT_INITIAL_GAP,
        DEFAULT_MAX_GAP,
        DEFAULT_THRESHOLD,
    );
    expect_eq!(named, Some(silence))
}

#[test]
fn nothing_was_heard(rt: HostRuntime) -> Result<(), Fail> {
    let window = window(rt.alloc(), Silence::default(), &[])?;
    for now in [0, 1, u64::MAX] {
        expect_eq!(window.verdict(now), Verdict::Unheard, "at {now}")?;
    }
    Ok(())
}

// 2 gaps of 3,000 together: silent after 18.421 of their mean.
#[test]
fn silence_threshold(rt: HostRuntime) -> Result<(), Fail> {
    let window = window(rt.alloc(), Silence::default(), &[10000, 11000])?;
    for (now, verdict) in [
        (10500, Verdict::Alive),
        (38631, Verdict::Alive),
        (38632, Verdict::Silent),
        (u64::MAX, Verdict::Silent),
    ] {
        expect_eq!(window.verdict(now), verdict, "at {now}")?;
    }
    Ok(())
}

// A gap of 1 is added, and the last arrival stays at 11,000.
#[test]
fn an_arrival_before_the_last_one(rt: HostRuntime) -> Result<(), Fail> {
    let window = window(rt.alloc(), Silence::default(), &[10000, 11000, 10400])?;
    expect_eq!(window.verdict(29427), Verdict::Alive)?;
    expect_eq!(window.verdict(29428), Verdict::Silent)
}

// Of the gaps 2,000, 1,000, 7,000 and 500 the third is not recorded, and the first has left: the mean of the
// others is 750, and the last arrival is 9,500.
#[test]
fn gaps_are_left_out_and_leave(rt: HostRuntime) -> Result<(), Fail> {
    let silence = silence(2, 2000, 5000, 1000)?;
    let window = window(rt.alloc(), silence, &[1000, 2000, 9000, 9500])?.copy(rt.alloc())?;
    expect_eq!(window.verdict(10250), Verdict::Alive)?;
    expect_eq!(window.verdict(10251), Verdict::Silent)
}

// A copy and its source go on independently.
#[test]
fn a_copy_stands_alone(rt: HostRuntime) -> Result<(), Fail> {
    let source = window(rt.alloc(), silence(2, 1000, 5000, 1000)?, &[1000])?;
    let mut copy = source.copy(rt.alloc())?;
    copy.arrived(4000);
    expect_eq!(source.verdict(2001), Verdict::Silent)?;
    expect_eq!(copy.verdict(6000), Verdict::Alive)?;
    expect_eq!(copy.verdict(6001), Verdict::Silent)
}

// The greatest settings: 1,000 gaps of a day and a million means. Both products pass 64 bits.
#[test]
fn the_greatest_products(rt: HostRuntime) -> Result<(), Fail> {
    let silence = silence(WINDOW_LIMIT, GAP_LIMIT, GAP_LIMIT, THRESHOLD_LIMIT)?;
    let mut window = Window::new(rt.alloc(), silence)?;
    for day in 0..1000u64 {
        window.arrived(day * 86400000);
    }
    expect_eq!(window.verdict(86486313600000), Verdict::Alive)?;
    expect_eq!(window.verdict(86486313600001), Verdict::Silent)?;
    expect_eq!(window.verdict(u64::MAX), Verdict::Silent)
}

// Tests whether the two windows judge differently at a time or just after it.
fn are_apart(window: &Window, shared: &SharedWindow, at: u64) -> bool {
    let later = at.saturating_add(1);
    window.verdict(at) != shared.verdict(at) || window.verdict(later) != shared.verdict(later)
}

// The first arrival behind which a window that shares its gaps judges not as one that does not. Each gap is greater by
// 1 than the last; the times are about the mean of those kept, so one more or less would be seen.
fn first_apart(alloc: Global, silence: Silence) -> Result<Option<u64>, Fail> {
    let half = silence.window() as u64 / 2;
    let mut window = Window::new(alloc, silence)?;
    let mut shared = SharedWindow::new(alloc, silence)?;
    let mut now = 0u64;
    for gap in 1..1500u64 {
        now = now.saturating_add(gap);
        window.arrived(now);
        shared.arrived(alloc, now)?;
        let mean = gap.saturating_sub(half.min(gap / 2));
        if are_apart(&window, &shared, now.saturating_add(mean)) {
            return Ok(Some(gap));
        }
    }
    Ok(None)
}

// A tail is put behind the shared gaps at each 17th arrival, and all of them into one list at some.
#[test]
fn windows_agree_that_share_or_not(rt: HostRuntime) -> Result<(), Fail> {
    for size in [1, 20, 114, 1000] {
        let apart = first_apart(rt.alloc(), silence(size, 1, 5000, 1000)?)?;
        expect_eq!(apart, None, "of {size} gaps")?;
    }
    Ok(())
}
