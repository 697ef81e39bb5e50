//! The arguments of the calls of x86-64 in Linux 6.12, six for each number from 0 on; a line of letters has those of 16 numbers.
//! `tools/call_arguments` makes the table.
/// The kind of each argument: absent -, a mode m, an int i, 32 bits without a sign u, 64 bits l, an address p.
pub const KINDS: &str = "\
    upl---upl---pim---u-----pp----up----pp----pui---ulu---llulullll---ll----l-----ippl--ippl--------\
    uul---upll--upll--upl---upl---pi----p-----ipppp-------lllll-lli---llp---lli---ili---ipi---iip---\
    u-----uu----------pp----ip----u-----ipp---------iipl--iii---ipi---ipp---iplupiipluppipu---ipu---\
    ii----ipi---ii----ipp---ipp---iiip--iiipi-iiipp-ulppl-------------ppp---i-----ipip--ii----p-----\
    iii---ipu---iiil--p-----ii----ipli--iplli-iip---uul---uu----u-----u-----pl----ul----upu---pl----\
    p-----u-----pp----pm----p-----pm----pp----p-----pp----ppi---pm----um----puu---uuu---puu---i-----\
    pp----up----ip----p-----p-----lill--------ipi---------u-----u-----------------ii----------------\
    ------uu----uu----ip----ip----uuu---ppp---uuu---ppp---i-----u-----u-----i-----pp----pp----pl----\
    pppl--iip---pl----pp----pp----pmu---llllllu-----up----pp----up----ill---ii----iii---ip----ip----\
    iip---i-----i-----i-----ip----ll----ll----i-----------------ipl---pp----llllllillll-il----p-----\
    up----p-----------p-----pp----ppplp-pi----pi----p-----iiup--pi----pi----u-----lli---llllllplp---\
    pu----llllllllllllupup--llllllllllllllllllllllllllllllllllll------ill---pppli-pppli-ippli-pppl--\
    pppl--ippl--ppl---ppl---ipl---pp----pp----ip----ii----p-----piuppuiup---iup---llllllup----l-----\
    lllpp-llp---lpp---lllllllllllli-----lllllllllllllllll-upu---p-----------ipup--illi--ipp---iipp--\
    ip----i-----i-----ip----ip----ip----iipp--i-----ipii--iiip--iii---pp----lllllllllpluipl---pplll-\
    pimp--p-----iplup-iplpp-ip----ipp---llpl--iipip-pppli-pppi--illll-iii---ii----------ipu---ii----\
    ilpp--ipim--ipm---ipmu--ipuui-ipp---ippi--ipi---ipip--ipipi-pip---ippi--ipm---ipi---ippppppuppl-\
    l-----pl----ipp---ipipluiilu--illu--iplu--ilpppiippi--ipiiplipl---ii----u-----iill--iipp--ip----\
    ippi--ipli--ui----i-----uui---pi----i-----uplll-uplll-iiip--piiil-ipuup-uu----iulip-iupp--ipppi-\
    ipi---ip----i-----ipuu--ii----ppp---iplplliplplliiill-ipi---ipu---ipuu--ipipu-uup---plu---pu----\
    iilpl-ipu---ipppi-i-----iui---lli---ipipluupllliuplllillli--ll----i-----ipuup-lllppppuiu--------\
    llllllllllllllllllllllllllllllllllllllllllllllllllllllllllllllllllllllllllllllllllllllllllllllll\
    llllllllllllllllllllllllllllllllllllllllllllllllllllllllllllllllllllllllllllllllllllllllllllllll\
    llllllllllllllllllllllllllllllllllllllllllllllllllllllllllllllllllllllllllllllllllllllllllllllll\
    llllllllllllllllllllllllllllllllllllllllllllllllllllllllllllllllllllllllllllllllllllllllllllllll\
    llllllllllllllllllllllllllllllllllllllllllllllllllllllllllllllllllllllllllllllllllllllllllllllll\
    lllllllllllllllllllllllllllllllllllllllllllllllliipu--up----uuuupluupu--ipu---ipipu-pu----iuppi-\
    iuu---ipu---iu----pl----uuu---ippl--iiu---ipii--ipliu-ipipplipupl-uuup--plu---iipu--iu----u-----\
    iu----puupi-llll--uppu--ipmu--llu---pliu--pllupipuii--pplu--pplu--uppu--upuu--ppu---lll---\
    ";

/// The place of the argument for some of whose values alone Linux reads each.
pub const DECIDERS: &str = "\
    --------------1-------------------------------------------33------------------------------------\
    --1-------------------------------------------------------3---------------------------------1---\
    ------------------------------------------------------------------------------------------------\
    --------------------------------------------------000-------------------------------------------\
    ---------------2----------------------------1-----1---------------------------------------------\
    ------------------------------------------------------------------------------------------------\
    -------------------------------000---------00---------------------------------------------------\
    ------------------------------------------------------------------------------------------------\
    -------------------------------------------------------------------00---------------------------\
    -------------------------------------------------------------------------------0000--0----------\
    ---------------------------------------------------------2--------------------------------------\
    --------------------00--------------------------------------------------------------------------\
    --------------------------------------------------------------1111------------------------------\
    ------------------------------------------------------------------------------------------------\
    ---------------------------------------------------------1--------------------------------------\
    -------------------------------------------0-----------------0000-------------------------------\
    ---------2--------------------------------------------------------------------------------------\
    ------------------------------------------------------------------------------------------------\
    ------------------------------------------------------------------------------------------------\
    ---------------------------------------------------22-------------------------------------------\
    --------------------------1---------------------------------------------------------------------\
    ------------------------------------------------------------------------------------------------\
    ------------------------------------------------------------------------------------------------\
    ------------------------------------------------------------------------------------------------\
    ------------------------------------------------------------------------------------------------\
    ------------------------------------------------------------------------------------------------\
    --------------------------------------------------------------------11----------------------111-\
    --------------------------------------------------------------------11--------------------------\
    ------------------------------------------------------------------------------------------\
    ";

/// The name of each argument in the manual.
pub const NAMES: &str = "\
    fd buf count - - - fd buf count - - - pathname flags mode - - - fd - - - - - pathname statbuf - - - - fd statbuf - - \
    - - pathname statbuf - - - - fds nfds timeout - - - fd offset whence - - - addr length prot flags fd offset addr len \
    prot - - - addr length - - - - addr - - - - - signum act oldact sigsetsize - - how set oldset sigsetsize - - - - - - \
    - - fd op argp - - - fd buf count pos - - fd buf count pos - - fd iov iovcnt - - - fd iov iovcnt - - - pathname mode \
    - - - - pipefd - - - - - nfds readfds writefds exceptfds timeout - - - - - - - old_address old_size new_size flags \
    new_address - addr length flags - - - addr length vec - - - addr length advice - - - key size shmflg - - - shmid \
    shmaddr shmflg - - - shmid op buf - - - oldfd - - - - - oldfd newfd - - - - - - - - - - duration rem - - - - which \
    curr_value - - - - seconds - - - - - which new_value old_value - - - - - - - - - out_fd in_fd offset count - - \
    domain type protocol - - - sockfd addr addrlen - - - sockfd addr addrlen - - - sockfd buf len flags dest_addr \
    addrlen sockfd buf len flags src_addr addrlen sockfd msg flags - - - sockfd msg flags - - - sockfd how - - - - \
    sockfd addr addrlen - - - sockfd backlog - - - - sockfd addr addrlen - - - sockfd addr addrlen - - - domain type \
    protocol sv - - sockfd level optname optval optlen - sockfd level optname optval optlen - flags stack parent_tid \
    child_tid tls - - - - - - - - - - - - - pathname argv envp - - - error_code - - - - - pid wstatus options rusage - - \
    pid sig - - - - buf - - - - - key nsems semflg - - - semid sops nsops - - - semid semnum op arg - - shmaddr - - - - \
    - key msgflg - - - - msqid msgp msgsz msgflg - - msqid msgp msgsz msgtyp msgflg - msqid op buf - - - fd op arg - - - \
    fd op - - - - fd - - - - - fd - - - - - path length - - - - fd length - - - - fd dirp count - - - buf size - - - - \
    path - - - - - fd - - - - - oldpath newpath - - - - pathname mode - - - - pathname - - - - - pathname mode - - - - \
    oldpath newpath - - - - pathname - - - - - target linkpath - - - - pathname buf bufsiz - - - pathname mode - - - - \
    fd mode - - - - pathname owner group - - - fd owner group - - - pathname owner group - - - mask - - - - - tv tz - - \
    - - resource rlim - - - - who usage - - - - info - - - - - buf - - - - - op pid addr data - - - - - - - - type bufp \
    len - - - - - - - - - uid - - - - - gid - - - - - - - - - - - - - - - - - pid pgid - - - - - - - - - - - - - - - - - \
    - - - - - ruid euid - - - - rgid egid - - - - size list - - - - size list - - - - ruid euid suid - - - ruid euid \
    suid - - - rgid egid sgid - - - rgid egid sgid - - - pid - - - - - fsuid - - - - - fsgid - - - - - pid - - - - - \
    hdrp datap - - - - hdrp datap - - - - set sigsetsize - - - - uthese uinfo uts sigsetsize - - tgid sig info - - - \
    unewset sigsetsize - - - - ss old_ss - - - - filename times - - - - pathname mode dev - - - - - - - - - persona - - \
    - - - dev ubuf - - - - path buf - - - - fd buf - - - - option fs_index buf - - - which who - - - - which who prio - \
    - - pid param - - - - pid param - - - - pid policy param - - - pid - - - - - policy - - - - - policy - - - - - pid \
    tp - - - - addr len - - - - addr len - - - - flags - - - - - - - - - - - - - - - - - func ptr bytecount - - - \
    new_root put_old - - - - - - - - - - op arg2 arg3 arg4 arg5 - op addr - - - - buf - - - - - resource rlim - - - - \
    path - - - - - - - - - - - filename - - - - - tv tz - - - - source target filesystemtype mountflags data - target \
    flags - - - - path swapflags - - - - path - - - - - magic magic2 op arg - - name len - - - - name len - - - - level \
    - - - - - from num turn_on - - - - - - - - - module_image len param_values - - - name flags - - - - - - - - - - - - \
    - - - - op special id addr - - - - - - - - - - - - - - - - - - - - - - - - - - - - - - - - - - - - - - - - - - - - \
    fd offset count - - - path name value size flags - path name value size flags - fd name value size flags - path name \
    value size - - path name value size - - fd name value size - - path list size - - - path list size - - - fd list \
    size - - - path name - - - - path name - - - - fd name - - - - tid sig - - - - tloc - - - - - uaddr futex_op val \
    timeout uaddr2 val3 pid cpusetsize mask - - - pid cpusetsize mask - - - - - - - - - nr_events ctx_idp - - - - ctx_id \
    - - - - - ctx_id min_nr nr events timeout - ctx_id nr iocbpp - - - ctx_id iocb result - - - - - - - - - - - - - - - \
    size - - - - - - - - - - - - - - - - - addr size prot pgoff flags - fd dirp count - - - tidptr - - - - - - - - - - - \
    semid sops nsops timeout - - fd offset len advice - - clockid sevp timerid - - - timerid flags new_value old_value - \
    - timerid curr_value - - - - timerid - - - - - timerid - - - - - clockid tp - - - - clockid tp - - - - clockid res - \
    - - - clockid flags t remain - - status - - - - - epfd events maxevents timeout - - epfd op fd event - - tgid tid \
    sig - - - filename times - - - - - - - - - - addr len mode nodemask maxnode flags mode nodemask maxnode - - - mode \
    nodemask maxnode addr flags - name oflag mode attr - - name - - - - - mqdes msg_ptr msg_len msg_prio abs_timeout - \
    mqdes msg_ptr msg_len msg_prio abs_timeout - mqdes sevp - - - - mqdes newattr oldattr - - - entry nr_segments \
    segments flags - - which pid infop options ru - type description payload plen keyring - type description \
    callout_info dest_keyring - - operation arg2 arg3 arg4 arg5 - which who ioprio - - - which who - - - - - - - - - - \
    fd pathname mask - - - fd wd - - - - pid maxnode old_nodes new_nodes - - dirfd pathname flags mode - - dirfd \
    pathname mode - - - dirfd pathname mode dev - - dirfd pathname owner group flags - dirfd pathname times - - - dirfd \
    pathname statbuf flag - - dirfd pathname flags - - - olddirfd oldpath newdirfd newpath - - olddirfd oldpath newdirfd \
    newpath flags - target newdirfd linkpath - - - dirfd pathname buf bufsiz - - dirfd pathname mode - - - dirfd \
    pathname mode - - - nfds readfds writefds exceptfds timeout sigmask fds nfds timeout sigmask sigsetsize - flags - - \
    - - - head len - - - - pid head_ptr len_ptr - - - fd_in off_in fd_out off_out len flags fd_in fd_out len flags - - \
    fd offset nbytes flags - - fd iov nr_segs flags - - pid count pages nodes status flags dirfd pathname times flags - \
    - epfd events maxevents timeout sigmask sigsetsize fd mask sizemask - - - clockid flags - - - - count - - - - - fd \
    mode offset len - - fd flags new_value old_value - - fd curr_value - - - - sockfd addr addrlen flags - - ufd \
    user_mask sizemask flags - - count flags - - - - flags - - - - - oldfd newfd flags - - - pipefd flags - - - - flags \
    - - - - - fd vec vlen pos_l pos_h - fd vec vlen pos_l pos_h - tgid tid sig info - - attr pid cpu group_fd flags - \
    sockfd msgvec vlen flags timeout - flags event_f_flags - - - - fanotify_fd flags mask dirfd pathname - pid resource \
    new_rlim old_rlim - - dirfd pathname handle mount_id flags - mount_fd handle flags - - - clk_id buf - - - - fd - - - \
    - - sockfd msgvec vlen flags - - fd nstype - - - - cpu node tcache - - - pid local_iov liovcnt remote_iov riovcnt \
    flags pid local_iov liovcnt remote_iov riovcnt flags pid1 pid2 type idx1 idx2 - fd param_values flags - - - pid attr \
    flags - - - pid attr size flags - - olddirfd oldpath newdirfd newpath flags - operation flags args - - - buf buflen \
    flags - - - name flags - - - - kernel_fd initrd_fd cmdline_len cmdline flags - cmd attr size - - - dirfd pathname \
    argv envp flags - flags - - - - - cmd flags cpu_id - - - addr len flags - - - fd_in off_in fd_out off_out len flags \
    fd vec vlen pos_l pos_h flags fd vec vlen pos_l pos_h flags addr len prot pkey - - flags access_rights - - - - pkey \
    - - - - - dirfd pathname flags mask statxbuf - ctx_id min_nr nr events timeout sig rseq rseq_len flags sig - - - - - \
    - - - - - - - - - - - - - - - - - - - - - - - - - - - - - - - - - - - - - - - - - - - - - - - - - - - - - - - - - - \
    - - - - - - - - - - - - - - - - - - - - - - - - - - - - - - - - - - - - - - - - - - - - - - - - - - - - - - - - - - \
    - - - - - - - - - - - - - - - - - - - - - - - - - - - - - - - - - - - - - - - - - - - - - - - - - - - - - - - - - - \
    - - - - - - - - - - - - - - - - - - - - - - - - - - - - - - - - - - - - - - - - - - - - - - - - - - - - - - - - - - \
    - - - - - - - - - - - - - - - - - - - - - - - - - - - - - - - - - - - - - - - - - - - - - - - - - - - - - - - - - - \
    - - - - - - - - - - - - - - - - - - - - - - - - - - - - - - - - - - - - - - - - - - - - - - - - - - - - - - - - - - \
    - - - - - - - - - - - - - - - - - - - - - - - - - - - - - - - - - - - - - - - - - - - - - - - - - - - - - - - - - - \
    - - - - - - - - - - - - - - - - - - - - - - - - - - - - - - - - - - - - - - - - - - - - - - - - - - - - - - - - - - \
    - - - - - - - - - - - - - - - - - - - - - - - - - - - - - - - - - - - - - - - - - - - - - - - - - - - - - - - - - - \
    - - - - - - - - - pidfd sig info flags - - entries p - - - - fd to_submit min_complete flags argp argsz fd op arg \
    nr_args - - dirfd path flags - - - from_dfd from_path to_dfd to_path ms_flags - fs_name flags - - - - fs_fd cmd key \
    value aux - fs_fd flags ms_flags - - - dirfd path flags - - - pid flags - - - - cl_args size - - - - first last \
    flags - - - dirfd pathname how size - - pidfd targetfd flags - - - dirfd pathname mode flags - - pidfd iovec n \
    advice flags - epfd events maxevents timeout sigmask sigsetsize dirfd pathname flags attr size - fd cmd id addr - - \
    attr size flags - - - ruleset_fd rule_type rule_attr flags - - ruleset_fd flags - - - - flags - - - - - pidfd flags \
    - - - - waiters nr_futexes flags timeout clockid - start len home_node flags - - fd cstat_range cstat flags - - \
    dirfd pathname mode flags - - addr size flags - - - uaddr mask nr flags - - uaddr val mask flags timespec clockid \
    waiters flags nr_wake nr_requeue - - req buf bufsize flags - - req mnt_ids nr_mnt_ids flags - - attr ctx size flags \
    - - attr ctx size flags - - ids size flags - - - start len flags - - -\
    ";
