// The oven's cases, put to the judges: each case is one line, the call and the answer.
#![tactic(auto)]

mod ask;
mod oven;
mod sheets;
mod show;

fn main(rt: HostRuntime) {
    let screen = rt.stdout();
    if !(oven::cases(screen)
        & oven::one_sided(screen)
        & oven::wrong(screen)
        & oven::pair(screen)
        & oven::lamp(screen))
    {
        // What is lost where standard error takes no line is lost.
        let _ = eprintln!(rt; "try_oven: a write failed");
    }
}
