//! The pages that are printed.

ghost use Rattle.std.specs.Prelude.{◌≡◌};
ghost use Rattle.lasline_top.specs.Pages.{help_page, version_page};

/// What `--help` prints.
pub(crate) fn help() -> &'static str
    ensures { result.now ≡ help_page }
{
    concat!(
        "lasline runs lidar points through a pipeline of stages.\n",
        "\n",
        "  lasline run FILE [OPTIONS]   run the pipeline in FILE\n",
        "  lasline plan FILE            print its steps\n",
        "  lasline gen N NAME           make a LAS file of N points\n",
        "  lasline trial N [OPTIONS]    make one and run a fixed pipeline on it;\n",
        "                               this replaces trial.las and trial.txt\n",
        "  lasline --help               print this page\n",
        "  lasline --version            print the version\n",
        "\n",
        "Options, each at most once and in any order:\n",
        "\n",
        "  --chunk N      points that a stage passes on at once: 1 to 64 (default 64)\n",
        "  --queue N      items that wait between two stages: 1 to 64 (default 8)\n",
        "  --workers N    threads that the stages go on by: 1 to 32 (default 1)\n",
        "  --patience N   rounds without work until one stops: 0 to 1000000 (default 1000)\n",
        "  --stop first   end a run at the first fault that is seen\n",
        "  --whole        run the stages one after the other, on whole lists\n",
        "\n",
        "For example, a file p.json with the text\n",
        "\n",
        "  [\"in.las\",\"o.txt\"]\n",
        "\n",
        "makes of `lasline run p.json` a text file of the points of in.las.\n",
        "\n",
        "Exit codes:\n",
        "\n",
        "  0  nothing is wrong\n",
        "  1  the words of the command line are wrong\n",
        "  2  the pipeline has a fault\n",
        "  3  the data have a fault: a LAS file isn't read, an expression divides by zero, a value has no room\n",
        "  4  a device failed, or a file to read isn't there\n",
        "  5  there was no memory\n",
        "\n",
        "README.md, docs/PIPELINES.md, docs/FORMATS.md and docs/ERRORS.md of the source tell the rest.\n",
    )
}

/// What `--version` prints.
pub(crate) fn version() -> &'static str
    ensures { result.now ≡ version_page }
{
    "lasline 1\n"
}
